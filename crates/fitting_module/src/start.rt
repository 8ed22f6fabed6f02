// A module begins, and a slot of it is taken up again from the bytes of its log.
ghost use Rattle.std.specs.Prelude.{[]};
ghost use Rattle.site.specs.Model.{received, lent};
ghost use Rattle.fitting_module.specs.Words.{words};
ghost use Rattle.fitting_module.specs.Starts.{Starts};
ghost use Rattle.fitting_module.specs.Restarts.{ValidBefore, RestartsSlot};

use super::lines::{EntryNumbers, TableRows};
use super::words::{SlotWords, module_at, put_module};
use call_words::answer::reply_number;
use history::book::BookWords;
use module::Module;

// A new module: no slot is open.
pub fn fm_start_parts(
    first: &mut SlotWords,
    second: &mut SlotWords,
    third: &mut SlotWords,
    fourth: &mut SlotWords,
    rows: &TableRows,
    numbers: &mut EntryNumbers,
)
    ensures { Starts (words first.new second.new third.new fourth.new) rows.now numbers.new }
{
    put_module(first, second, third, fourth, Module::new(numbers));
}

// "Restart takes the first K bytes": 0, or the number of the refusal. Whatever site the slot had is replaced, in this buffer or another; a
// refused restart leaves it.
pub fn fm_restart_parts(
    first: &mut SlotWords,
    second: &mut SlotWords,
    third: &mut SlotWords,
    fourth: &mut SlotWords,
    log: &[u8],
    rows: &mut TableRows,
    numbers: &mut EntryNumbers,
    book: &mut BookWords,
    slot: usize,
    kept: usize,
) -> u64
    requires { ValidBefore (words first.old second.old third.old fourth.old) slot (received log.now rows.old numbers.old book.old) }
    ensures { RestartsSlot slot (words first.old second.old third.old fourth.old) (lent log.now rows.old numbers.old book.old []) kept
        result
        (words first.new second.new third.new fourth.new) (lent log.now rows.new numbers.new book.new []) }
{
    let m = module_at(first, second, third, fourth);
    let r = m.restart(slot, log, rows, numbers, book, kept);
    put_module(first, second, third, fourth, r.after);
    reply_number(r.reply.form)
}
