// A copy of a slot's log with a base line in place of its first operations.
ghost use Rattle.std.specs.Prelude.{[]};
ghost use Rattle.site.specs.Model.{received, lent};
ghost use Rattle.fitting_module.specs.Model.{ValidState};
ghost use Rattle.fitting_module.specs.Words.{words};
ghost use Rattle.fitting_module.specs.Trims.{TrimsSlot};

use fitting_module::lines::{EntryNumbers, TableRows};
use fitting_module::words::SlotWords;
use history::book::BookWords;

// Copies a slot's log into a fresh buffer, with a base line in place of its first n operations: 0, and `used` is the bytes used there; or
// the number of the refusal. Nothing else changes.
#[unsafe(no_mangle)]
pub extern "C" fn fm_trim_parts(
    first: &SlotWords,
    second: &SlotWords,
    third: &SlotWords,
    fourth: &SlotWords,
    log: &[u8],
    rows: &TableRows,
    numbers: &EntryNumbers,
    book: &BookWords,
    slot: usize,
    n: u64,
    fresh: &mut [u8],
    used: &mut usize,
) -> u64
    requires { ValidState (words first.now second.now third.now fourth.now) slot (received log.now rows.now numbers.now book.now) }
    ensures { TrimsSlot (words first.now second.now third.now fourth.now) slot (lent log.now rows.now numbers.now book.now []) n
        fresh.old result fresh.new
        used.old used.new }
{
    fitting_module::trims::fm_trim_parts(
        first, second, third, fourth, log, rows, numbers, book, slot, n, fresh, used,
    )
}
