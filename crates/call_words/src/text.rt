// A reply as text.
ghost use Rattle.std.specs.Prelude.{◌≤◌, length};
ghost use Rattle.forms.specs.Forms.{outcome_text};
ghost use Rattle.forms.specs.Held.{replied, outcome_of};
ghost use Rattle.forms.specs.Limits.{reply_limit};
ghost use Rattle.forms.specs.Write.{Wrote, with_end};
ghost use Rattle.site.specs.Model.{Printable};

use forms::{ReplyLine, ReplyNumbers};
use session::write_turn;

// Writes a reply, with its end, at the front of a buffer that has room for the longest: this is asked of the slice, since C lends buffers
// of any length, and the calls that are lent one test it first.
pub fn put_reply(out: &mut [u8], r: ReplyLine, lists: &ReplyNumbers) -> usize
    requires printable { Printable (replied r lists.now) }
    requires reply_limit_in_bounds { reply_limit ≤ length out.old }
    ensures { Wrote out.old 0 (with_end (outcome_text (outcome_of (replied r lists.now)))) result out.new }
{
    write_turn(out, 0, r, lists).unwrap_or(0)
}
