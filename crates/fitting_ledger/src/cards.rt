// The card of the last W lines of the site's log (02 (j)), counted afresh whenever it is asked for.
ghost use Rattle.std.specs.Prelude.{[]};
ghost use Rattle.site.specs.Model.{received, lent};
ghost use Rattle.fitting_ledger.specs.Model.{ValidState, state_at};
ghost use Rattle.fitting_ledger.specs.Cards.{CardsState};

use super::counters::{Counters, site_in};
use call_words::OUT_OF_TURN;
use call_words::said::put_said;
use card::Card;
use card::counts::{Counts, ROW};
use forms::limits::HISTORIES;
use history::book::BookWords;
use table::order::Order;
use table::rows::Rows;

// How many counts a card has: inc, set and not of each history.
pub const CARD_WORDS: usize = HISTORIES * ROW;

// Counts the card of the last w lines of the log: 0, the counts of the site's histories are the card's, and `lines` is how many lines
// count; or the number of the refusal. Nothing else changes.
pub fn fl_card_parts(
    counters: &Counters,
    log: &[u8],
    rows: &Rows,
    order: &Order,
    book: &BookWords,
    w: u64,
    counts: &mut Counts,
    lines: &mut usize,
) -> u64
    requires { ValidState counters.now (received log.now rows.now order.now book.now) }
    ensures { CardsState w (state_at counters.now (lent log.now rows.now order.now book.now [])) counts.old lines.old result
        counts.new lines.new }
{
    let Some(site) = site_in(counters) else {
        return OUT_OF_TURN;
    };
    let made = Card::afresh(w, &log[..site.used], site.count, site.head, counts);
    put_said(lines, made.map(|c| c.lines))
}
