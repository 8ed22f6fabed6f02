// Lines written where there is room, and where there is one byte too little: then no byte changes.
ghost use Rattle.std.specs.Prelude.{◌≤◌, length};
ghost use Rattle.forms.specs.Write.{HeldInRange};
ghost use Rattle.forms.specs.Limits.{live_limit};

use super::{say, show};
use forms::limits::UPDATES;
use forms::{DidLine, ReplyForm};

// The answer, and the whole buffer as it is now.
fn say_whole(rt: &impl Print, r: Option<usize>, buf: &[u8]) {
    match r {
        Some(n) => {
            say(rt, b"  ends at ");
            show(rt, n);
        }
        None => say(rt, b"  no room"),
    }
    say(rt, b" in [");
    say(rt, buf);
    say(rt, b"]\n");
}

fn try_did(rt: &impl Print, buf: &mut [u8], at: usize, d: DidLine)
    requires { HeldInRange d.held }
{
    let r = forms::writer::write_did(buf, at, d);
    say_whole(rt, r, buf);
}

fn try_site(rt: &impl Print, buf: &mut [u8], at: usize, n: u64) {
    let r = forms::writer::write_site(buf, at, n);
    say_whole(rt, r, buf);
}

fn try_ready(rt: &impl Print, buf: &mut [u8], at: usize, ids: &[u64])
    requires { length ids.now ≤ live_limit }
{
    let w = forms::writer::write_reply(buf, at, ReplyForm::Added, ids, &[]);
    say_whole(rt, w, buf);
}

// A did line of 37 bytes with its end, in buffers of 36, 37 and 42 bytes.
fn try_dids(rt: &impl Print, d: DidLine)
    requires { HeldInRange d.held }
{
    let mut short = [b'.'; 36];
    let mut just = [b'.'; 37];
    let mut long = [b'.'; 42];
    try_did(rt, &mut short, 0, d);
    try_did(rt, &mut just, 1, d);
    try_did(rt, &mut just, 0, d);
    for at in [6, 3, 5, 43, usize::MAX] {
        try_did(rt, &mut long, at, d);
    }
}

// The paper's first did line.
pub fn say_did_room(rt: &impl Print) {
    match forms::reader::read_did(b"(did 5 (inc 0 1 1 513)(not 1 0 1 0))") {
        Some(did) if did.held.count <= UPDATES => try_dids(rt, did),
        _ => {}
    }
}

// A site line of 9 bytes with its end, in buffers of 8, 9 and 12 bytes.
pub fn say_site_room(rt: &impl Print) {
    let mut short = [b'.'; 8];
    let mut just = [b'.'; 9];
    let mut long = [b'.'; 12];
    try_site(rt, &mut short, 0, 2);
    try_site(rt, &mut just, 1, 2);
    try_site(rt, &mut just, 0, 10);
    try_site(rt, &mut just, 0, 2);
    for (at, n) in [(4, 2), (1, 2), (3, 7), (13, 2)] {
        try_site(rt, &mut long, at, n);
    }
}

// A reply of 23 bytes with its end, in buffers of 22, 23 and 30 bytes.
pub fn say_reply_room(rt: &impl Print) {
    let ids = [5, 6, 7, 8, 9];
    let mut short = [b'.'; 22];
    let mut just = [b'.'; 23];
    let mut long = [b'.'; 30];
    try_ready(rt, &mut short, 0, &ids);
    try_ready(rt, &mut just, 1, &ids);
    try_ready(rt, &mut just, 0, &ids);
    for at in [8, 7, 2, 31] {
        try_ready(rt, &mut long, at, &ids);
    }
}
