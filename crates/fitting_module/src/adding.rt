// An operation is added to a slot on numbers.
ghost use Rattle.site.specs.Model.{received, lent};
ghost use Rattle.fitting_module.specs.Model.{ValidState};
ghost use Rattle.fitting_module.specs.Words.{words};
ghost use Rattle.fitting_module.specs.Calls.{PerformsAdd};

use super::answer::put_call;
use super::lines::{EntryNumbers, TableRows};
use super::words::{SlotWords, module_at};
use call_words::UNREADABLE;
use call_words::adding::{Updates, held_in, rules_known};
use call_words::answer::Answer;
use forms::ReplyNumbers;
use history::book::BookWords;

// Adds an operation to a slot: 0, or the number of the refusal; 1 where a rule's number is none.
pub fn fm_add_parts(
    first: &mut SlotWords,
    second: &mut SlotWords,
    third: &mut SlotWords,
    fourth: &mut SlotWords,
    log: &[u8],
    rows: &mut TableRows,
    numbers: &mut EntryNumbers,
    book: &mut BookWords,
    lists: &mut ReplyNumbers,
    answer: &mut Answer,
    slot: usize,
    id: u64,
    updates: &Updates,
    count: usize,
) -> u64
    requires { ValidState (words first.old second.old third.old fourth.old) slot (received log.now rows.old numbers.old book.old) }
    ensures { PerformsAdd slot (words first.old second.old third.old fourth.old) (lent log.now rows.old numbers.old book.old lists.old)
        id count updates.now result
        (words first.new second.new third.new fourth.new) (lent log.now rows.new numbers.new book.new lists.new) answer.old answer.new }
{
    if !rules_known(updates) {
        return UNREADABLE;
    }
    let asked = held_in(updates, count);
    let m = module_at(first, second, third, fourth);
    let r = m.add(slot, log, rows, numbers, book, lists, id, asked);
    put_call(first, second, third, fourth, answer, r)
}
