// Calls of a site without text, one round after the other: for measuring what a call costs. Site and arrays are handed on one by one, as
// the site's calls take them.
ghost use Rattle.std.specs.Prelude.{◌≡◌, [], ◌∷◌, ◌<◌, length};
ghost use Rattle.rules.specs.Calls.{open_site};
ghost use Rattle.site.specs.Model.{received, Valid, lent};
ghost use Rattle.site.specs.Trim.{updates_held};
ghost use Rattle.c_api.specs.Rounds.{Reaches, inc_of, work_calls, mark_calls, round_calls, Rounds};

use forms::{Asked, AskedHeld, LogNumber, ReplyNumbers, Rule, Version};
use history::book::{BookWords, WIDTH};
use site::Site;
use table::order::Order;
use table::rows::{ROW, Rows};

// One update: part 0 of a history's profile becomes 7.
pub(crate) fn asked_inc(history: u64, version: u64) -> AskedHeld
    ensures { updates_held result ≡ (inc_of history version ∷ []) }
{
    let a = Asked {
        rule: Rule::Inc,
        history,
        version: Version(version),
        operand: 7,
    };
    AskedHeld {
        count: 1,
        first: [a; Site::UPDATES],
    }
}

// An operation is added and finished.
fn one_operation(
    site: Site,
    log: &mut [u8],
    rows: &mut Rows,
    order: &mut Order,
    book: &mut BookWords,
    lists: &mut ReplyNumbers,
    id: u64,
) -> Site
    requires { Valid site (received log.old rows.old order.old book.old) }
    ensures { Reaches site (lent log.old rows.old order.old book.old lists.old) (work_calls id) result
        (lent log.new rows.new order.new book.new lists.new) }
{
    let asked = asked_inc(id % 4, id / 4 + 1);
    let a = site.add(log, rows, order, book, lists, id, asked);
    let f = a.site.finish(log, rows, order, book, lists, id);
    f.site
}

// The first n operations become persistent and stable.
fn mark(
    site: Site,
    log: &mut [u8],
    rows: &Rows,
    order: &mut Order,
    book: &mut BookWords,
    lists: &mut ReplyNumbers,
    n: u64,
) -> Site
    requires { Valid site (received log.old rows.now order.old book.old) }
    ensures { Reaches site (lent log.old rows.now order.old book.old lists.old) (mark_calls n) result
        (lent log.new rows.now order.new book.new lists.new) }
{
    let p = site.persistent(log, rows, order, book, lists, LogNumber(n));
    let s = p.site.stable(log, rows, order, book, lists, LogNumber(n));
    s.site
}

// The operation with this id, and after every 32nd the marks.
fn round(
    site: Site,
    log: &mut [u8],
    rows: &mut Rows,
    order: &mut Order,
    book: &mut BookWords,
    lists: &mut ReplyNumbers,
    id: u64,
) -> Site
    requires valid { Valid site (received log.old rows.old order.old book.old) }
    requires id_bound { id < 18446744073709551615 }
    ensures { Reaches site (lent log.old rows.old order.old book.old lists.old) (round_calls id) result
        (lent log.new rows.new order.new book.new lists.new) }
{
    let worked = one_operation(site, log, rows, order, book, lists, id);
    if id % 32 == 31 {
        return mark(worked, log, rows, order, book, lists, id + 1);
    }
    worked
}

// Opens a site of four histories, adds and finishes the operations with the ids below n, and gives the bytes of the log then in use.
pub fn site_add_and_finish(log: &mut [u8], n: u64) -> usize
    ensures { Rounds (open_site 4 (length log.old)) n log.old result log.new }
{
    let mut rows = [0u64; Site::LIVE * ROW];
    let mut order = [0u8; Site::LIVE];
    let mut book = [0u64; Site::HISTORIES * WIDTH];
    let c = Site::open(log, &rows, &mut order, &mut book, 4);
    let mut site = c.site;
    if site.count == 0 {
        return 0;
    }
    let mut lists = [0u64; Site::UPDATES + Site::LIVE];
    for id in 0..n {
        site = round(site, log, &mut rows, &mut order, &mut book, &mut lists, id);
    }
    site.used
}
