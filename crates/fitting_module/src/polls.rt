// The poll of a history of a slot's site.
ghost use Rattle.std.specs.Prelude.{◌≡◌, []};
ghost use Rattle.site.specs.Model.{received, lent};
ghost use Rattle.session.specs.Polls.{polled_number};
ghost use Rattle.module.specs.Polls.{slot_polled};
ghost use Rattle.fitting_module.specs.Model.{ValidState};
ghost use Rattle.fitting_module.specs.Words.{words};
ghost use Rattle.fitting_module.specs.Polls.{PollsSlot};

use super::lines::{EntryNumbers, TableRows};
use super::words::{SlotWords, module_at};
use call_words::OUT_OF_TURN;
use call_words::polls::poll_number;
use history::book::BookWords;
use site::poll::PollAnswer;

// The number for what a slot's poll says: C is told numbers alone.
fn slot_number(p: Option<PollAnswer>) -> u64
    ensures { result ≡ polled_number (slot_polled p) }
{
    match p {
        None => OUT_OF_TURN,
        Some(a) => poll_number(a),
    }
}

// Polls a history of a slot: 1,001 if it is dry, 1,000 if not, or the number of the refusal. Nothing changes.
pub fn fm_poll_parts(
    first: &SlotWords,
    second: &SlotWords,
    third: &SlotWords,
    fourth: &SlotWords,
    log: &[u8],
    rows: &TableRows,
    numbers: &EntryNumbers,
    book: &BookWords,
    slot: usize,
    history: u64,
) -> u64
    requires { ValidState (words first.now second.now third.now fourth.now) slot (received log.now rows.now numbers.now book.now) }
    ensures { PollsSlot (words first.now second.now third.now fourth.now) slot (lent log.now rows.now numbers.now book.now []) history
        result }
{
    let m = module_at(first, second, third, fourth);
    slot_number(m.poll(slot, book, history))
}
