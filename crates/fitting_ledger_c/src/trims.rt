// A copy of the site's log with a base line in place of its first operations.
ghost use Rattle.std.specs.Prelude.{[]};
ghost use Rattle.site.specs.Model.{received, lent};
ghost use Rattle.fitting_ledger.specs.Model.{ValidState};
ghost use Rattle.fitting_ledger.specs.Trims.{TrimsState};

use fitting_ledger::counters::Counters;
use history::book::BookWords;
use table::order::Order;
use table::rows::Rows;

// Copies the log into a fresh buffer, with a base line in place of its first n operations: 0, and `used` is the bytes used there; or the
// number of the refusal. Nothing else changes.
#[unsafe(no_mangle)]
pub extern "C" fn fl_trim_parts(
    counters: &Counters,
    log: &[u8],
    rows: &Rows,
    order: &Order,
    book: &BookWords,
    n: u64,
    fresh: &mut [u8],
    used: &mut usize,
) -> u64
    requires { ValidState counters.now (received log.now rows.now order.now book.now) }
    ensures { TrimsState counters.now (lent log.now rows.now order.now book.now []) n fresh.old result fresh.new
        used.old used.new }
{
    fitting_ledger::trims::fl_trim_parts(counters, log, rows, order, book, n, fresh, used)
}
