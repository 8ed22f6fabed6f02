// The cut of the site's log that leaves given places.
ghost use Rattle.std.specs.Prelude.{[]};
ghost use Rattle.site.specs.Model.{received, lent};
ghost use Rattle.fitting_ledger.specs.Model.{ValidState};
ghost use Rattle.fitting_ledger.specs.Finds.{FindsState};

use super::counters::{Counters, site_in};
use call_words::OUT_OF_TURN;
use call_words::said::put_said;
use find_cut::find_cut;
use history::book::BookWords;
use table::order::Order;
use table::rows::Rows;

// Names the smallest number of bytes of the log whose cut leaves these places: 0, and `kept` is that number; or the number of the refusal.
// Nothing else changes.
pub fn fl_find_cut_parts(
    counters: &Counters,
    log: &[u8],
    rows: &Rows,
    order: &Order,
    book: &BookWords,
    places: &[u64],
    kept: &mut usize,
) -> u64
    requires { ValidState counters.now (received log.now rows.now order.now book.now) }
    ensures { FindsState counters.now (lent log.now rows.now order.now book.now []) places.now result kept.old kept.new }
{
    let Some(site) = site_in(counters) else {
        return OUT_OF_TURN;
    };
    let found = find_cut(site, log, places);
    put_said(kept, found)
}
