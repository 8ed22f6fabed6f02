// A whole session over lent buffers, and polls of its site's histories at its end.
ghost use Rattle.std.specs.Prelude.{◌≡◌, map};
ghost use Rattle.c_api.specs.Polls.{session_poll, OpenWith, WithBook, PlaysPolls};

use call_words::OUT_OF_TURN;
use call_words::polls::poll_number;
use history::book::{BookWords, WIDTH};
use session::Session;
use site::Site;
use stream::run_session;
use table::rows::ROW;

// The poll of a history of the session's site: 14 "before site".
fn session_poll(session: Session, book: &BookWords, h: u64) -> u64
    requires { OpenWith session book.now }
    ensures { WithBook session book.now (λ st. result ≡ session_poll st h) }
{
    match session.site {
        Some(site) => poll_number(site.poll(book, h)),
        None => OUT_OF_TURN,
    }
}

// Each number becomes what the poll of the history with this number gives. By index, so that `polled_by_place` shows number and place
// apart.
fn poll_each(session: Session, book: &BookWords, histories: &mut [u64])
    requires { OpenWith session book.now }
    ensures { WithBook session book.now (λ st. histories.new ≡ map (session_poll st) histories.old) }
{
    for i in 0..histories.len() {
        histories[i] = session_poll(session, book, histories[i]);
    }
}

// A whole session, and each number of `histories` becomes what a poll of that history gives at its end: 1,001 if it is dry, 1,000
// if not, a refusal's number if there is none. They stay as they are where `out` is too short, or nearly.
pub fn session_polls(input: &[u8], log: &mut [u8], out: &mut [u8], histories: &mut [u64]) -> usize
    ensures { PlaysPolls input.now log.old result log.new out.old out.new histories.old histories.new }
{
    let mut rows = [0u64; Site::LIVE * ROW];
    let mut order = [0u8; Site::LIVE];
    let mut book = [0u64; Site::HISTORIES * WIDTH];
    let mut lists = [0u64; Site::UPDATES + Site::LIVE];
    let r = run_session(
        input, log, &mut rows, &mut order, &mut book, &mut lists, out,
    );
    if !r.whole {
        return usize::MAX;
    }
    poll_each(r.session, &book, histories);
    r.written
}
