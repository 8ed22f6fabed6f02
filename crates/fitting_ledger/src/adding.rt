// An operation is added on numbers.
ghost use Rattle.site.specs.Model.{received, lent};
ghost use Rattle.fitting_ledger.specs.Model.{ValidState};
ghost use Rattle.fitting_ledger.specs.Adding.{PerformsAdd};

use super::answer::put_call;
use super::counters::{Counters, site_in};
use call_words::adding::{Updates, held_in, rules_known};
use call_words::answer::Answer;
use call_words::{OUT_OF_TURN, UNREADABLE};
use forms::ReplyNumbers;
use history::book::BookWords;
use table::order::Order;
use table::rows::Rows;

// Adds an operation: 0, or the number of the refusal; 1 where a rule's number is none.
pub fn fl_add_parts(
    counters: &mut Counters,
    log: &[u8],
    rows: &mut Rows,
    order: &Order,
    book: &mut BookWords,
    numbers: &mut ReplyNumbers,
    answer: &mut Answer,
    id: u64,
    updates: &Updates,
    count: usize,
) -> u64
    requires { ValidState counters.old (received log.now rows.old order.now book.old) }
    ensures { PerformsAdd counters.old (lent log.now rows.old order.now book.old numbers.old) id count updates.now result counters.new
        (lent log.now rows.new order.now book.new numbers.new) answer.old answer.new }
{
    if !rules_known(updates) {
        return UNREADABLE;
    }
    let Some(site) = site_in(counters) else {
        return OUT_OF_TURN;
    };
    let asked = held_in(updates, count);
    let r = site.add(log, rows, order, book, numbers, id, asked);
    put_call(counters, answer, r)
}
