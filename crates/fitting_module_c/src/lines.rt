// A line in, a reply out, and how much of a slot's log is in use.
ghost use Rattle.std.specs.Prelude.{[]};
ghost use Rattle.site.specs.Model.{received, lent};
ghost use Rattle.fitting_module.specs.Model.{ValidState};
ghost use Rattle.fitting_module.specs.Words.{words};
ghost use Rattle.fitting_module.specs.Lines.{AnswersLine};
ghost use Rattle.fitting_module.specs.Used.{UsedIn};

use fitting_module::lines::{EntryNumbers, TableRows};
use fitting_module::words::SlotWords;
use history::book::BookWords;

// Obeys a line for a slot, given without its end, and writes its reply, with its end: the bytes of the reply. Where `out` has less room
// than the longest reply nothing has happened, and the room needed is returned: more than there is.
#[unsafe(no_mangle)]
pub extern "C" fn fm_line_parts(
    first: &mut SlotWords,
    second: &mut SlotWords,
    third: &mut SlotWords,
    fourth: &mut SlotWords,
    log: &mut [u8],
    rows: &mut TableRows,
    numbers: &mut EntryNumbers,
    book: &mut BookWords,
    slot: usize,
    line: &[u8],
    out: &mut [u8],
) -> usize
    requires { ValidState (words first.old second.old third.old fourth.old) slot (received log.old rows.old numbers.old book.old) }
    ensures { AnswersLine slot (words first.old second.old third.old fourth.old) (lent log.old rows.old numbers.old book.old []) line.now
        result
        (words first.new second.new third.new fourth.new) (lent log.new rows.new numbers.new book.new []) out.old out.new }
{
    fitting_module::lines::fm_line_parts(
        first, second, third, fourth, log, rows, numbers, book, slot, line, out,
    )
}

// How many bytes of a slot's log are in use: 0 where the slot is not open, and above the last slot.
#[unsafe(no_mangle)]
pub extern "C" fn fm_log_used_parts(
    first: &SlotWords,
    second: &SlotWords,
    third: &SlotWords,
    fourth: &SlotWords,
    log: &[u8],
    rows: &TableRows,
    numbers: &EntryNumbers,
    book: &BookWords,
    slot: usize,
) -> usize
    requires { ValidState (words first.now second.now third.now fourth.now) slot (received log.now rows.now numbers.now book.now) }
    ensures { UsedIn (words first.now second.now third.now fourth.now) slot (lent log.now rows.now numbers.now book.now []) result }
{
    fitting_module::lines::fm_log_used_parts(
        first, second, third, fourth, log, rows, numbers, book, slot,
    )
}
