// Restart from any bytes, with its reply as text.
ghost use Rattle.std.specs.Prelude.{◌≡◌};
ghost use Rattle.rules.specs.Calls.{restart};
ghost use Rattle.c_api.specs.Codes.{code_of, PutsText, reply_text};

use forms::writer::write_reply;
use history::book::WIDTH;
use site::Site;
use table::rows::ROW;

// A place in a buffer as a plain number: 2^64 − 1 where there was no room.
pub fn code(w: Option<usize>) -> usize
    ensures { result ≡ code_of w }
{
    w.unwrap_or(usize::MAX)
}

// "Restart takes the first K bytes": its reply, with its end, at the front of `out`.
pub fn site_restart(log: &[u8], k: usize, out: &mut [u8]) -> usize
    ensures { PutsText (reply_text (restart log.now k)) out.old result out.new }
{
    let mut rows = [0u64; Site::LIVE * ROW];
    let mut order = [0u8; Site::LIVE];
    let mut book = [0u64; Site::HISTORIES * WIDTH];
    let c = Site::restart(log, &mut rows, &mut order, &mut book, k);
    code(write_reply(out, 0, c.reply.form, &[], &[]))
}
