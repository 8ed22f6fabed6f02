// Calls of an open site on numbers, whose replies have lists: 0, or the number of the refusal. The lists stand in `numbers`, the second
// behind the first; `answer` has the rest of the reply. A refusal changes neither. The calls here and in `plain_calls` are alike, and
// functions of their own, since C calls each by its name.
ghost use Rattle.rules.specs.Calls.{Call};
ghost use Rattle.site.specs.Model.{received, lent};
ghost use Rattle.fitting_ledger.specs.Model.{ValidState};
ghost use Rattle.fitting_ledger.specs.Calls.{PerformsCall};

use super::answer::put_call;
use super::counters::{Counters, site_in};
use call_words::OUT_OF_TURN;
use call_words::answer::Answer;
use forms::{LogNumber, ReplyNumbers};
use history::book::BookWords;
use table::order::Order;
use table::rows::Rows;

// Finishes an operation that is in progress.
pub fn fl_finish_parts(
    counters: &mut Counters,
    log: &mut [u8],
    rows: &mut Rows,
    order: &mut Order,
    book: &mut BookWords,
    numbers: &mut ReplyNumbers,
    answer: &mut Answer,
    id: u64,
) -> u64
    requires { ValidState counters.old (received log.old rows.old order.old book.old) }
    ensures { PerformsCall counters.old (lent log.old rows.old order.old book.old numbers.old) (Call.Finish id) result counters.new
        (lent log.new rows.new order.new book.new numbers.new) answer.old answer.new }
{
    let Some(site) = site_in(counters) else {
        return OUT_OF_TURN;
    };
    let r = site.finish(log, rows, order, book, numbers, id);
    put_call(counters, answer, r)
}

// Withdraws a future operation.
pub fn fl_withdraw_parts(
    counters: &mut Counters,
    log: &[u8],
    rows: &Rows,
    order: &mut Order,
    book: &mut BookWords,
    numbers: &mut ReplyNumbers,
    answer: &mut Answer,
    id: u64,
) -> u64
    requires { ValidState counters.old (received log.now rows.now order.old book.old) }
    ensures { PerformsCall counters.old (lent log.now rows.now order.old book.old numbers.old) (Call.Withdraw id) result counters.new
        (lent log.now rows.now order.new book.new numbers.new) answer.old answer.new }
{
    let Some(site) = site_in(counters) else {
        return OUT_OF_TURN;
    };
    let r = site.withdraw(log, rows, order, book, numbers, id);
    put_call(counters, answer, r)
}

// Makes the first n operations persistent.
pub fn fl_persistent_parts(
    counters: &mut Counters,
    log: &[u8],
    rows: &Rows,
    order: &mut Order,
    book: &mut BookWords,
    numbers: &mut ReplyNumbers,
    answer: &mut Answer,
    n: u64,
) -> u64
    requires { ValidState counters.old (received log.now rows.now order.old book.old) }
    ensures { PerformsCall counters.old (lent log.now rows.now order.old book.old numbers.old) (Call.Persistent n) result counters.new
        (lent log.now rows.now order.new book.new numbers.new) answer.old answer.new }
{
    let Some(site) = site_in(counters) else {
        return OUT_OF_TURN;
    };
    let r = site.persistent(log, rows, order, book, numbers, LogNumber(n));
    put_call(counters, answer, r)
}

// Makes the first n operations stable.
pub fn fl_stable_parts(
    counters: &mut Counters,
    log: &mut [u8],
    rows: &Rows,
    order: &Order,
    book: &mut BookWords,
    numbers: &mut ReplyNumbers,
    answer: &mut Answer,
    n: u64,
) -> u64
    requires { ValidState counters.old (received log.old rows.now order.now book.old) }
    ensures { PerformsCall counters.old (lent log.old rows.now order.now book.old numbers.old) (Call.Stable n) result counters.new
        (lent log.new rows.now order.now book.new numbers.new) answer.old answer.new }
{
    let Some(site) = site_in(counters) else {
        return OUT_OF_TURN;
    };
    let r = site.stable(log, rows, order, book, numbers, LogNumber(n));
    put_call(counters, answer, r)
}

// Ends restoring.
pub fn fl_end_parts(
    counters: &mut Counters,
    log: &[u8],
    rows: &Rows,
    order: &Order,
    book: &BookWords,
    numbers: &mut ReplyNumbers,
    answer: &mut Answer,
) -> u64
    requires { ValidState counters.old (received log.now rows.now order.now book.now) }
    ensures { PerformsCall counters.old (lent log.now rows.now order.now book.now numbers.old) Call.End result counters.new
        (lent log.now rows.now order.now book.now numbers.new) answer.old answer.new }
{
    let Some(site) = site_in(counters) else {
        return OUT_OF_TURN;
    };
    let r = site.end(log, rows, order, book, numbers);
    put_call(counters, answer, r)
}
