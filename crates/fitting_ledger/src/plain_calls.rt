// Calls of an open site on numbers, whose replies have no lists: 0, or the number of the refusal. They are alike, and functions of their
// own, since C calls each by its name.
ghost use Rattle.std.specs.Prelude.{[], length};
ghost use Rattle.rules.specs.Calls.{Call};
ghost use Rattle.site.specs.Model.{received, lent};
ghost use Rattle.fitting_ledger.specs.Model.{ValidState};
ghost use Rattle.fitting_ledger.specs.Calls.{PerformsCall};

use super::answer::put_call;
use super::counters::{Counters, site_in};
use call_words::OUT_OF_TURN;
use call_words::answer::Answer;
use history::book::BookWords;
use table::order::Order;
use table::rows::Rows;

// Shows a history.
pub fn fl_show_parts(
    counters: &mut Counters,
    log: &[u8],
    rows: &Rows,
    order: &Order,
    book: &BookWords,
    answer: &mut Answer,
    history: u64,
) -> u64
    requires { ValidState counters.old (received log.now rows.now order.now book.now) }
    ensures { PerformsCall counters.old (lent log.now rows.now order.now book.now []) (Call.Show history) result counters.new
        (lent log.now rows.now order.now book.now []) answer.old answer.new }
{
    let Some(site) = site_in(counters) else {
        return OUT_OF_TURN;
    };
    let r = site.show(log, rows, order, book, history);
    put_call(counters, answer, r)
}

// A supply cut that leaves the first k bytes of the log, and a restart from them.
pub fn fl_cut_parts(
    counters: &mut Counters,
    log: &[u8],
    rows: &mut Rows,
    order: &Order,
    book: &mut BookWords,
    answer: &mut Answer,
    k: u64,
) -> u64
    requires { ValidState counters.old (received log.now rows.old order.now book.old) }
    ensures { PerformsCall counters.old (lent log.now rows.old order.now book.old []) (Call.Cut k (length log.now)) result counters.new
        (lent log.now rows.new order.now book.new []) answer.old answer.new }
{
    let Some(site) = site_in(counters) else {
        return OUT_OF_TURN;
    };
    let r = site.cut(log, rows, order, book, k);
    put_call(counters, answer, r)
}

// Redoes a did line, given without its end.
pub fn fl_redo_parts(
    counters: &mut Counters,
    log: &mut [u8],
    rows: &mut Rows,
    order: &mut Order,
    book: &mut BookWords,
    answer: &mut Answer,
    line: &[u8],
) -> u64
    requires { ValidState counters.old (received log.old rows.old order.old book.old) }
    ensures { PerformsCall counters.old (lent log.old rows.old order.old book.old []) (Call.Redo line.now) result counters.new
        (lent log.new rows.new order.new book.new []) answer.old answer.new }
{
    let Some(site) = site_in(counters) else {
        return OUT_OF_TURN;
    };
    let r = site.redo(log, rows, order, book, line);
    put_call(counters, answer, r)
}
