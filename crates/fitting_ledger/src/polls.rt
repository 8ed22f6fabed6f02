// The poll of a history of the site.
ghost use Rattle.std.specs.Prelude.{◌≡◌, []};
ghost use Rattle.site.specs.Model.{received, lent};
ghost use Rattle.fitting_ledger.specs.Model.{ValidState, state_at};
ghost use Rattle.fitting_ledger.specs.Polls.{poll_of};

use super::counters::{Counters, site_in};
use call_words::OUT_OF_TURN;
use call_words::polls::poll_number;
use history::book::BookWords;
use table::order::Order;
use table::rows::Rows;

// Polls a history: 1,001 if it is dry, 1,000 if not, or the number of the refusal. Nothing changes.
pub fn fl_poll_parts(
    counters: &Counters,
    log: &[u8],
    rows: &Rows,
    order: &Order,
    book: &BookWords,
    history: u64,
) -> u64
    requires { ValidState counters.now (received log.now rows.now order.now book.now) }
    ensures { result ≡ poll_of (state_at counters.now (lent log.now rows.now order.now book.now [])) history }
{
    let Some(site) = site_in(counters) else {
        return OUT_OF_TURN;
    };
    poll_number(site.poll(book, history))
}
