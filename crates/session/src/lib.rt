// A session: one form a line in, one reply a line out, over a site whose log stands in a lent buffer.
#![tactic(auto)]

ghost use Rattle.std.specs.Prelude.{◌≡◌, ◌+◌, ◌&&◌, [], leb, None};
ghost use Rattle.forms.specs.Held.{replied};
ghost use Rattle.forms.specs.Limits.{live_limit};
ghost use Rattle.site.specs.Model.{Lent, received, Valid, RefusedAs, lent};
ghost use Rattle.session.specs.Model.{ValidSession, Refuses, Starts, TurnsLine, AnswersLine, lists_fit, WritesReply};
ghost use Rattle.session.specs.Model.{turned_of, OpensLine, DoesForm, TurnsForm};
ghost use Rattle.session.specs.Feeding.{HoldsLine};

use forms::limits::{LINE_BYTES, LIVE};
use forms::reader::{CommandForm, read_command};
use forms::writer::write_reply;
use forms::{LogNumber, Refusal, ReplyLine, ReplyNumbers};
use history::book::BookWords;
use site::{CallResult, Site, refusal};
use table::order::Order;
use table::rows::Rows;

// A session by value: its site, once one is open. Its log buffer is lent to each call, and so are the other four arrays: one by one, since
// the site's calls, and C, take each by itself, and some may only be read.
#[derive(Clone, Copy)]
pub struct Session {
    pub site: Option<Site>,
}

// What a line gives: the session after it, and the reply.
#[derive(Clone, Copy)]
pub struct LineResult {
    pub session: Session,
    pub reply: ReplyLine,
}

// What a line gives with its reply written: the session after it, and where the reply ends, if it had room.
#[derive(Clone, Copy)]
pub struct Answered {
    pub session: Session,
    pub next: Option<usize>,
}

// An unended line so far: its first `len` bytes, in an array that has the most there can be, since there is no heap. Where a line is above
// 1,024 bytes, no such value stands for it.
#[derive(Clone, Copy)]
pub struct PartialLine {
    pub bytes: [u8; LINE_BYTES],
    pub len: usize,
}

// No byte of a line yet.
pub fn no_line() -> PartialLine
    ensures { HoldsLine result [] }
{
    PartialLine {
        bytes: [0; LINE_BYTES],
        len: 0,
    }
}

// What an open site hands back where it refuses: for `(site N)`, which is no call of a site, so that none of its calls says it.
fn refused(site: Site, q: Refusal) -> CallResult
    ensures { (m : Lent) → RefusedAs site m q result m }
{
    CallResult {
        site,
        reply: refusal(q),
    }
}

// What the session's site handed back.
fn called(r: CallResult) -> LineResult
    ensures { result ≡ turned_of r }
{
    let reply = r.reply;
    LineResult {
        session: Session { site: Some(r.site) },
        reply,
    }
}

// What a form asks of an open site.
fn call(
    site: Site,
    log: &mut [u8],
    rows: &mut Rows,
    order: &mut Order,
    book: &mut BookWords,
    lists: &mut ReplyNumbers,
    form: CommandForm,
) -> CallResult
    requires { Valid site (received log.old rows.old order.old book.old) }
    ensures { DoesForm site (lent log.old rows.old order.old book.old lists.old) form result
        (lent log.new rows.new order.new book.new lists.new) }
{
    match form {
        CommandForm::SiteOf(_) => refused(site, Refusal::OutOfTurn),
        CommandForm::Add(i, asked) => site.add(log, rows, order, book, lists, i, asked),
        CommandForm::Finish(i) => site.finish(log, rows, order, book, lists, i),
        CommandForm::Withdraw(i) => site.withdraw(log, rows, order, book, lists, i),
        CommandForm::Persistent(n) => site.persistent(log, rows, order, book, lists, LogNumber(n)),
        CommandForm::Stable(n) => site.stable(log, rows, order, book, lists, LogNumber(n)),
        CommandForm::Show(h) => site.show(log, rows, order, book, h),
        CommandForm::Cut(k) => site.cut(log, rows, order, book, k),
        CommandForm::Redo(did) => site.redo_did(log, rows, order, book, did),
        CommandForm::End => site.end(log, rows, order, book, lists),
    }
}

// Do the lists of a reply stand in so many numbers, at most 64 each?
fn lists_fit(first: usize, second: usize, numbers: usize) -> bool
    ensures { result ≡ (leb first live_limit && leb second live_limit && leb (first + second) numbers) }
{
    first <= LIVE && second <= LIVE && first + second <= numbers
}

// Writes the reply of a turn, with its end: its lists stand one behind the other at the front of what was lent for them.
// It has at most 2,741 bytes. Nothing is written of a reply that is of no turn, where its lists do not stand there.
pub fn write_turn(out: &mut [u8], at: usize, r: ReplyLine, lists: &[u64]) -> Option<usize>
    ensures { WritesReply (lists_fit r lists.now) (replied r lists.now) out.old at result out.new }
{
    if !lists_fit(r.first, r.second, lists.len()) {
        return None;
    }
    let (first, rest) = lists.split_at(r.first);
    write_reply(out, at, r.form, first, &rest[..r.second])
}

impl Session {
    // A line that is refused. Site and module have such a function too, each with a result of its own.
    pub fn refuse(self, q: Refusal) -> LineResult
        ensures { Refuses self q result }
    {
        LineResult {
            session: self,
            reply: refusal(q),
        }
    }

    // `(site N)` "before site": a refused opening hands back a site without histories.
    fn open_site(
        self,
        log: &mut [u8],
        rows: &Rows,
        order: &mut Order,
        book: &mut BookWords,
        n: u64,
    ) -> LineResult
        requires { self.site ≡ None }
        ensures { OpensLine self n (lent log.old rows.now order.old book.old) (lent log.new rows.now order.new book.new) result }
    {
        let c = Site::open(log, rows, order, book, n);
        if c.site.count == 0 {
            LineResult {
                session: self,
                reply: c.reply,
            }
        } else {
            called(c)
        }
    }

    // What a form asks for, if one was read: of the open site, or "before site".
    fn obey(
        self,
        log: &mut [u8],
        rows: &mut Rows,
        order: &mut Order,
        book: &mut BookWords,
        lists: &mut ReplyNumbers,
        form: Option<CommandForm>,
    ) -> LineResult
        requires { ValidSession self (received log.old rows.old order.old book.old) }
        ensures { TurnsForm self (lent log.old rows.old order.old book.old lists.old) form result
            (lent log.new rows.new order.new book.new lists.new) }
    {
        let Some(form) = form else {
            return self.refuse(Refusal::Unreadable);
        };
        match self.site {
            Some(site) => called(call(site, log, rows, order, book, lists, form)),
            None => match form {
                CommandForm::SiteOf(n) => self.open_site(log, rows, order, book, n),
                _ => self.refuse(Refusal::OutOfTurn),
            },
        }
    }

    // A line of the input, without its end.
    pub fn turn(
        self,
        log: &mut [u8],
        rows: &mut Rows,
        order: &mut Order,
        book: &mut BookWords,
        lists: &mut ReplyNumbers,
        line: &[u8],
    ) -> LineResult
        requires { ValidSession self (received log.old rows.old order.old book.old) }
        ensures { TurnsLine self (lent log.old rows.old order.old book.old lists.old) line.now result
            (lent log.new rows.new order.new book.new lists.new) }
    {
        self.obey(log, rows, order, book, lists, read_command(line))
    }

    // A session "before site".
    pub fn start() -> Session
        ensures { (m : Lent) → Starts result m }
    {
        Session { site: None }
    }

    // A line of the input, without its end, and its reply, with its end, at the front of `out`.
    pub fn answer(
        self,
        log: &mut [u8],
        rows: &mut Rows,
        order: &mut Order,
        book: &mut BookWords,
        lists: &mut ReplyNumbers,
        line: &[u8],
        out: &mut [u8],
    ) -> Answered
        requires { ValidSession self (received log.old rows.old order.old book.old) }
        ensures { AnswersLine self (lent log.old rows.old order.old book.old lists.old) line.now result
            (lent log.new rows.new order.new book.new lists.new) out.old out.new }
    {
        let t = self.turn(log, rows, order, book, lists, line);
        let next = write_turn(out, 0, t.reply, lists);
        Answered {
            session: t.session,
            next,
        }
    }
}
