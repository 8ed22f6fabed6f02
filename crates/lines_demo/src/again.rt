// What was read, written again.
ghost use Rattle.std.specs.Prelude.{◌≤◌, length, IfSome};
ghost use Rattle.forms.specs.Write.{HeldInRange};

use super::{say, show};
use forms::DidLine;
use forms::limits::UPDATES;

// The bytes up to where writing ended, with their number.
pub fn say_front(rt: &impl Print, r: Option<usize>, buf: &[u8])
    requires { IfSome r (λ n. n ≤ length buf.now) }
{
    match r {
        Some(n) => {
            say(rt, b"  writes ");
            show(rt, n);
            say(rt, b": ");
            say(rt, &buf[..n]);
        }
        None => say(rt, b"  no room\n"),
    }
}

// A did line.
fn write_again(rt: &impl Print, d: DidLine)
    requires { HeldInRange d.held }
{
    let mut buf = [b'.'; 384];
    let w = forms::writer::write_did(&mut buf, 0, d);
    say_front(rt, w, &buf);
}

// A line that reads as a did line, where all its updates are held.
pub fn say_did_again(rt: &impl Print, s: &[u8]) {
    match forms::reader::read_did(s) {
        Some(did) if did.held.count <= UPDATES => write_again(rt, did),
        _ => {}
    }
}

// A line that reads as a site line.
pub fn say_site_again(rt: &impl Print, s: &[u8]) {
    if let Some(n) = forms::reader::read_site(s) {
        let mut buf = [b'.'; 28];
        let w = forms::writer::write_site(&mut buf, 0, n);
        say_front(rt, w, &buf);
    }
}
