// Calls of a slot on numbers, whose replies have no lists: 0, or the number of the refusal. They are alike, and functions of their own,
// since C calls each by its name.
ghost use Rattle.std.specs.Prelude.{[], length};
ghost use Rattle.rules.specs.Calls.{Call};
ghost use Rattle.site.specs.Model.{received, lent};
ghost use Rattle.fitting_module.specs.Model.{ValidState};
ghost use Rattle.fitting_module.specs.Words.{words};
ghost use Rattle.fitting_module.specs.Calls.{PerformsCall};

use super::answer::put_call;
use super::lines::{EntryNumbers, TableRows};
use super::words::{SlotWords, module_at};
use call_words::answer::Answer;
use history::book::BookWords;

// Shows a history of a slot.
pub fn fm_show_parts(
    first: &mut SlotWords,
    second: &mut SlotWords,
    third: &mut SlotWords,
    fourth: &mut SlotWords,
    log: &[u8],
    rows: &TableRows,
    numbers: &EntryNumbers,
    book: &BookWords,
    answer: &mut Answer,
    slot: usize,
    history: u64,
) -> u64
    requires { ValidState (words first.old second.old third.old fourth.old) slot (received log.now rows.now numbers.now book.now) }
    ensures { PerformsCall slot (words first.old second.old third.old fourth.old) (lent log.now rows.now numbers.now book.now [])
        (Call.Show history) result
        (words first.new second.new third.new fourth.new) (lent log.now rows.now numbers.now book.now []) answer.old answer.new }
{
    let m = module_at(first, second, third, fourth);
    let r = m.show(slot, log, rows, numbers, book, history);
    put_call(first, second, third, fourth, answer, r)
}

// A supply cut that leaves the first k bytes of a slot's log, and a restart from them.
pub fn fm_cut_parts(
    first: &mut SlotWords,
    second: &mut SlotWords,
    third: &mut SlotWords,
    fourth: &mut SlotWords,
    log: &[u8],
    rows: &mut TableRows,
    numbers: &mut EntryNumbers,
    book: &mut BookWords,
    answer: &mut Answer,
    slot: usize,
    k: u64,
) -> u64
    requires { ValidState (words first.old second.old third.old fourth.old) slot (received log.now rows.old numbers.old book.old) }
    ensures { PerformsCall slot (words first.old second.old third.old fourth.old) (lent log.now rows.old numbers.old book.old [])
        (Call.Cut k (length log.now)) result
        (words first.new second.new third.new fourth.new) (lent log.now rows.new numbers.new book.new []) answer.old answer.new }
{
    let m = module_at(first, second, third, fourth);
    let r = m.cut(slot, log, rows, numbers, book, k);
    put_call(first, second, third, fourth, answer, r)
}

// Redoes a did line, given without its end, in a slot.
pub fn fm_redo_parts(
    first: &mut SlotWords,
    second: &mut SlotWords,
    third: &mut SlotWords,
    fourth: &mut SlotWords,
    log: &mut [u8],
    rows: &mut TableRows,
    numbers: &mut EntryNumbers,
    book: &mut BookWords,
    answer: &mut Answer,
    slot: usize,
    line: &[u8],
) -> u64
    requires { ValidState (words first.old second.old third.old fourth.old) slot (received log.old rows.old numbers.old book.old) }
    ensures { PerformsCall slot (words first.old second.old third.old fourth.old) (lent log.old rows.old numbers.old book.old [])
        (Call.Redo line.now) result
        (words first.new second.new third.new fourth.new) (lent log.new rows.new numbers.new book.new []) answer.old answer.new }
{
    let m = module_at(first, second, third, fourth);
    let r = m.redo(slot, log, rows, numbers, book, line);
    put_call(first, second, third, fourth, answer, r)
}
