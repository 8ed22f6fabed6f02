// Calls of a slot on numbers, whose replies have lists: 0, or the number of the refusal. The lists stand in `lists`, the second behind the
// first; `answer` has the rest of the reply. A refusal changes neither. The calls here and in `plain_calls` are alike, and functions of
// their own, since C calls each by its name.
ghost use Rattle.rules.specs.Calls.{Call};
ghost use Rattle.site.specs.Model.{received, lent};
ghost use Rattle.fitting_module.specs.Model.{ValidState};
ghost use Rattle.fitting_module.specs.Words.{words};
ghost use Rattle.fitting_module.specs.Calls.{PerformsCall};

use super::answer::put_call;
use super::lines::{EntryNumbers, TableRows};
use super::words::{SlotWords, module_at};
use call_words::answer::Answer;
use forms::{LogNumber, ReplyNumbers};
use history::book::BookWords;

// Finishes an operation of a slot that is in progress.
pub fn fm_finish_parts(
    first: &mut SlotWords,
    second: &mut SlotWords,
    third: &mut SlotWords,
    fourth: &mut SlotWords,
    log: &mut [u8],
    rows: &mut TableRows,
    numbers: &mut EntryNumbers,
    book: &mut BookWords,
    lists: &mut ReplyNumbers,
    answer: &mut Answer,
    slot: usize,
    id: u64,
) -> u64
    requires { ValidState (words first.old second.old third.old fourth.old) slot (received log.old rows.old numbers.old book.old) }
    ensures { PerformsCall slot (words first.old second.old third.old fourth.old) (lent log.old rows.old numbers.old book.old lists.old)
        (Call.Finish id) result
        (words first.new second.new third.new fourth.new) (lent log.new rows.new numbers.new book.new lists.new) answer.old answer.new }
{
    let m = module_at(first, second, third, fourth);
    let r = m.finish(slot, log, rows, numbers, book, lists, id);
    put_call(first, second, third, fourth, answer, r)
}

// Withdraws a future operation of a slot.
pub fn fm_withdraw_parts(
    first: &mut SlotWords,
    second: &mut SlotWords,
    third: &mut SlotWords,
    fourth: &mut SlotWords,
    log: &[u8],
    rows: &TableRows,
    numbers: &mut EntryNumbers,
    book: &mut BookWords,
    lists: &mut ReplyNumbers,
    answer: &mut Answer,
    slot: usize,
    id: u64,
) -> u64
    requires { ValidState (words first.old second.old third.old fourth.old) slot (received log.now rows.now numbers.old book.old) }
    ensures { PerformsCall slot (words first.old second.old third.old fourth.old) (lent log.now rows.now numbers.old book.old lists.old)
        (Call.Withdraw id) result
        (words first.new second.new third.new fourth.new) (lent log.now rows.now numbers.new book.new lists.new) answer.old answer.new }
{
    let m = module_at(first, second, third, fourth);
    let r = m.withdraw(slot, log, rows, numbers, book, lists, id);
    put_call(first, second, third, fourth, answer, r)
}

// Makes the first n operations of a slot persistent.
pub fn fm_persistent_parts(
    first: &mut SlotWords,
    second: &mut SlotWords,
    third: &mut SlotWords,
    fourth: &mut SlotWords,
    log: &[u8],
    rows: &TableRows,
    numbers: &mut EntryNumbers,
    book: &mut BookWords,
    lists: &mut ReplyNumbers,
    answer: &mut Answer,
    slot: usize,
    n: u64,
) -> u64
    requires { ValidState (words first.old second.old third.old fourth.old) slot (received log.now rows.now numbers.old book.old) }
    ensures { PerformsCall slot (words first.old second.old third.old fourth.old) (lent log.now rows.now numbers.old book.old lists.old)
        (Call.Persistent n) result
        (words first.new second.new third.new fourth.new) (lent log.now rows.now numbers.new book.new lists.new) answer.old answer.new }
{
    let m = module_at(first, second, third, fourth);
    let r = m.persistent(slot, log, rows, numbers, book, lists, LogNumber(n));
    put_call(first, second, third, fourth, answer, r)
}

// Makes the first n operations of a slot stable.
pub fn fm_stable_parts(
    first: &mut SlotWords,
    second: &mut SlotWords,
    third: &mut SlotWords,
    fourth: &mut SlotWords,
    log: &mut [u8],
    rows: &TableRows,
    numbers: &EntryNumbers,
    book: &mut BookWords,
    lists: &mut ReplyNumbers,
    answer: &mut Answer,
    slot: usize,
    n: u64,
) -> u64
    requires { ValidState (words first.old second.old third.old fourth.old) slot (received log.old rows.now numbers.now book.old) }
    ensures { PerformsCall slot (words first.old second.old third.old fourth.old) (lent log.old rows.now numbers.now book.old lists.old)
        (Call.Stable n) result
        (words first.new second.new third.new fourth.new) (lent log.new rows.now numbers.now book.new lists.new) answer.old answer.new }
{
    let m = module_at(first, second, third, fourth);
    let r = m.stable(slot, log, rows, numbers, book, lists, LogNumber(n));
    put_call(first, second, third, fourth, answer, r)
}

// Ends a slot's restoring.
pub fn fm_end_parts(
    first: &mut SlotWords,
    second: &mut SlotWords,
    third: &mut SlotWords,
    fourth: &mut SlotWords,
    log: &[u8],
    rows: &TableRows,
    numbers: &EntryNumbers,
    book: &BookWords,
    lists: &mut ReplyNumbers,
    answer: &mut Answer,
    slot: usize,
) -> u64
    requires { ValidState (words first.old second.old third.old fourth.old) slot (received log.now rows.now numbers.now book.now) }
    ensures { PerformsCall slot (words first.old second.old third.old fourth.old) (lent log.now rows.now numbers.now book.now lists.old)
        Call.End result
        (words first.new second.new third.new fourth.new) (lent log.now rows.now numbers.now book.now lists.new) answer.old answer.new }
{
    let m = module_at(first, second, third, fourth);
    let r = m.end(slot, log, rows, numbers, book, lists);
    put_call(first, second, third, fourth, answer, r)
}
