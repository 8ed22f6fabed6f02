// A site begins: opened, or taken up again from the bytes of its log.
ghost use Rattle.std.specs.Prelude.{◌≡◌, [], length};
ghost use Rattle.rules.specs.Calls.{open_site, restart};
ghost use Rattle.site.specs.Model.{lent};
ghost use Rattle.call_words.specs.Answers.{form_number};
ghost use Rattle.fitting_ledger.specs.Counters.{words_of};
ghost use Rattle.fitting_ledger.specs.Model.{begun_as, Begins};

use super::counters::{COUNTERS, Counters, words_of};
use call_words::answer::reply_number;
use history::book::BookWords;
use site::{CallResult, Site};
use table::order::Order;
use table::rows::Rows;

// The counters of the site that was opened; "before site" where it was refused.
#[tactic(auto, unfolding(crate::specs::Counters::words_of))]
fn begin(words: &mut Counters, c: CallResult) -> u64
    ensures { (result ≡ form_number c.reply.form) × (words.new ≡ words_of (begun_as (form_number c.reply.form) c.site)) }
{
    let n = reply_number(c.reply.form);
    *words = if n == 0 {
        words_of(c.site)
    } else {
        [0; COUNTERS]
    };
    n
}

// Opens a site of so many histories: 0, or the number of the refusal.
pub fn fl_start_parts(
    counters: &mut Counters,
    log: &mut [u8],
    rows: &Rows,
    order: &mut Order,
    book: &mut BookWords,
    histories: u64,
) -> u64
    ensures { Begins (lent log.old rows.now order.old book.old []) (open_site histories (length log.old)) result counters.new
        (lent log.new rows.now order.new book.new []) }
{
    let c = Site::open(log, rows, order, book, histories);
    begin(counters, c)
}

// "Restart takes the first K bytes": 0, or the number of the refusal.
pub fn fl_restart_parts(
    counters: &mut Counters,
    log: &[u8],
    rows: &mut Rows,
    order: &mut Order,
    book: &mut BookWords,
    kept: usize,
) -> u64
    ensures { Begins (lent log.now rows.old order.old book.old []) (restart log.now kept) result counters.new
        (lent log.now rows.new order.new book.new []) }
{
    let c = Site::restart(log, rows, order, book, kept);
    begin(counters, c)
}
