// A site begins: opened, or taken up again from the bytes of its log.
ghost use Rattle.std.specs.Prelude.{[], length};
ghost use Rattle.rules.specs.Calls.{open_site, restart};
ghost use Rattle.site.specs.Model.{lent};
ghost use Rattle.fitting_ledger.specs.Model.{Begins};

use fitting_ledger::counters::Counters;
use history::book::BookWords;
use table::order::Order;
use table::rows::Rows;

// Opens a site of so many histories: 0, or the number of the refusal.
#[unsafe(no_mangle)]
pub extern "C" fn fl_start_parts(
    counters: &mut Counters,
    log: &mut [u8],
    rows: &Rows,
    order: &mut Order,
    book: &mut BookWords,
    histories: u64,
) -> u64
    ensures { Begins (lent log.old rows.now order.old book.old []) (open_site histories (length log.old)) result counters.new
        (lent log.new rows.now order.new book.new []) }
{
    fitting_ledger::start::fl_start_parts(counters, log, rows, order, book, histories)
}

// "Restart takes the first K bytes": 0, or the number of the refusal.
#[unsafe(no_mangle)]
pub extern "C" fn fl_restart_parts(
    counters: &mut Counters,
    log: &[u8],
    rows: &mut Rows,
    order: &mut Order,
    book: &mut BookWords,
    kept: usize,
) -> u64
    ensures { Begins (lent log.now rows.old order.old book.old []) (restart log.now kept) result counters.new
        (lent log.now rows.new order.new book.new []) }
{
    fitting_ledger::start::fl_restart_parts(counters, log, rows, order, book, kept)
}
