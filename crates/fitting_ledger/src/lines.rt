// A line in, a reply out, and how much of the log is in use.
ghost use Rattle.std.specs.Prelude.{◌≡◌, [], length};
ghost use Rattle.rules.specs.Session.{turn};
ghost use Rattle.site.specs.Model.{received, lent};
ghost use Rattle.call_words.specs.Used.{used_by};
ghost use Rattle.fitting_ledger.specs.Model.{ValidState, state_at, AnswersIfRoom};

use super::counters::{Counters, put_session, session_at, site_in};
use call_words::text::put_reply;
use forms::limits::{LIVE, REPLY_BYTES, UPDATES};
use history::book::BookWords;
use table::order::Order;
use table::rows::Rows;

// Obeys a line, given without its end, and writes its reply, with its end: the bytes of the reply. Where `out` has less room
// than the longest reply nothing has happened, and the room needed is returned: more than there is.
pub fn fl_line_parts(
    counters: &mut Counters,
    log: &mut [u8],
    rows: &mut Rows,
    order: &mut Order,
    book: &mut BookWords,
    line: &[u8],
    out: &mut [u8],
) -> usize
    requires { ValidState counters.old (received log.old rows.old order.old book.old) }
    ensures { AnswersIfRoom counters.old (lent log.old rows.old order.old book.old [])
        (turn (length log.old) line.now (state_at counters.old (lent log.old rows.old order.old book.old [])))
        result counters.new (lent log.new rows.new order.new book.new []) out.old out.new }
{
    if out.len() < REPLY_BYTES {
        return REPLY_BYTES;
    }
    let mut lists = [0u64; UPDATES + LIVE];
    let s = session_at(counters);
    let t = s.turn(log, rows, order, book, &mut lists, line);
    put_session(counters, t.session);
    put_reply(out, t.reply, &lists)
}

// How many bytes of the log are in use: 0 "before site".
pub fn fl_log_used_parts(
    counters: &Counters,
    log: &[u8],
    rows: &Rows,
    order: &Order,
    book: &BookWords,
) -> usize
    requires { ValidState counters.now (received log.now rows.now order.now book.now) }
    ensures { result ≡ used_by (state_at counters.now (lent log.now rows.now order.now book.now [])) }
{
    match site_in(counters) {
        Some(site) => site.used,
        None => 0,
    }
}
