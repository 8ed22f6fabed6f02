// The poll of a history of a slot's site.
ghost use Rattle.std.specs.Prelude.{[]};
ghost use Rattle.site.specs.Model.{received, lent};
ghost use Rattle.fitting_module.specs.Model.{ValidState};
ghost use Rattle.fitting_module.specs.Words.{words};
ghost use Rattle.fitting_module.specs.Polls.{PollsSlot};

use fitting_module::lines::{EntryNumbers, TableRows};
use fitting_module::words::SlotWords;
use history::book::BookWords;

// Polls a history of a slot: 1,001 if it is dry, 1,000 if not, or the number of the refusal. Nothing changes.
#[unsafe(no_mangle)]
pub extern "C" fn fm_poll_parts(
    first: &SlotWords,
    second: &SlotWords,
    third: &SlotWords,
    fourth: &SlotWords,
    log: &[u8],
    rows: &TableRows,
    numbers: &EntryNumbers,
    book: &BookWords,
    slot: usize,
    history: u64,
) -> u64
    requires { ValidState (words first.now second.now third.now fourth.now) slot (received log.now rows.now numbers.now book.now) }
    ensures { PollsSlot (words first.now second.now third.now fourth.now) slot (lent log.now rows.now numbers.now book.now []) history
        result }
{
    fitting_module::polls::fm_poll_parts(
        first, second, third, fourth, log, rows, numbers, book, slot, history,
    )
}
