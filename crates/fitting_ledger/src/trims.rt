// A copy of the site's log with a base line in place of its first operations.
ghost use Rattle.std.specs.Prelude.{[]};
ghost use Rattle.site.specs.Model.{received, lent};
ghost use Rattle.fitting_ledger.specs.Model.{ValidState};
ghost use Rattle.fitting_ledger.specs.Trims.{TrimsState};

use super::counters::{Counters, site_in};
use call_words::OUT_OF_TURN;
use call_words::said::put_said;
use forms::LogNumber;
use history::book::BookWords;
use table::order::Order;
use table::rows::Rows;
use trim::trim;

// Copies the log into a fresh buffer, with a base line in place of its first n operations: 0, and `used` is the bytes used there; or the
// number of the refusal. Nothing else changes.
pub fn fl_trim_parts(
    counters: &Counters,
    log: &[u8],
    rows: &Rows,
    order: &Order,
    book: &BookWords,
    n: u64,
    fresh: &mut [u8],
    used: &mut usize,
) -> u64
    requires { ValidState counters.now (received log.now rows.now order.now book.now) }
    ensures { TrimsState counters.now (lent log.now rows.now order.now book.now []) n fresh.old result fresh.new
        used.old used.new }
{
    let Some(site) = site_in(counters) else {
        return OUT_OF_TURN;
    };
    let copied = trim(site, log, LogNumber(n), fresh);
    put_said(used, copied)
}
