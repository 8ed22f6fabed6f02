// A copy of a slot's log with a base line in place of its first operations.
ghost use Rattle.std.specs.Prelude.{[]};
ghost use Rattle.site.specs.Model.{received, lent};
ghost use Rattle.fitting_module.specs.Model.{ValidState};
ghost use Rattle.fitting_module.specs.Words.{words};
ghost use Rattle.fitting_module.specs.Trims.{TrimsSlot};

use super::lines::{EntryNumbers, TableRows};
use super::words::{SlotWords, module_at};
use call_words::OUT_OF_TURN;
use call_words::said::put_said;
use forms::LogNumber;
use history::book::BookWords;
use module::Module;
use trim::trim;

// Copies a slot's log into a fresh buffer, with a base line in place of its first n operations: 0, and `used` is the bytes used there; or
// the number of the refusal. Nothing else changes.
pub fn fm_trim_parts(
    first: &SlotWords,
    second: &SlotWords,
    third: &SlotWords,
    fourth: &SlotWords,
    log: &[u8],
    rows: &TableRows,
    numbers: &EntryNumbers,
    book: &BookWords,
    slot: usize,
    n: u64,
    fresh: &mut [u8],
    used: &mut usize,
) -> u64
    requires { ValidState (words first.now second.now third.now fourth.now) slot (received log.now rows.now numbers.now book.now) }
    ensures { TrimsSlot (words first.now second.now third.now fourth.now) slot (lent log.now rows.now numbers.now book.now []) n
        fresh.old result fresh.new
        used.old used.new }
{
    let m = module_at(first, second, third, fourth);
    if slot >= Module::SLOTS || !m.slots[slot].opened {
        return OUT_OF_TURN;
    }
    put_said(used, trim(m.slots[slot].site, log, LogNumber(n), fresh))
}
