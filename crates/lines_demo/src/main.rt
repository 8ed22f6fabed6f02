// Reads lines from standard input and prints what each reads as, as a command, a did line and a site line, and the bytes of the last two
// written again. Then it writes replies of every form, and lines where there is room and where there is one byte too little.
#![tactic(auto)]

use shown::Shown;
use std::fmt;
use std::io::Read;

mod again;
mod replies;
mod room;
mod shown;

ghost use Rattle.std.specs.Prelude.{◌≤◌, length};

// A write that fails is passed over.
fn say(rt: &impl Print, w: &[u8]) {
    let _ = rt.write_all(w);
}

// What displays, likewise.
fn show<T: fmt::Display + Copy>(rt: &impl Print, x: T) {
    let _ = rt.print(x);
}

// A line as a command, with what its form holds.
fn say_command(rt: &impl Print, s: &[u8]) {
    match forms::reader::read_command(s) {
        Some(form) => show(rt, Shown(form)),
        None => say(rt, b"unreadable"),
    }
}

// A line as each of the three kinds.
fn say_line(rt: &impl Print, s: &[u8]) {
    say_command(rt, s);
    if let Some(did) = forms::reader::read_did(s) {
        say(rt, b" |");
        show(rt, Shown(did));
    }
    if let Some(n) = forms::reader::read_site(s) {
        say(rt, b" | opens ");
        show(rt, n);
    }
    say(rt, b"\n");
    again::say_did_again(rt, s);
    again::say_site_again(rt, s);
}

// Each line that ends, and an unended rest.
fn say_lines(rt: &impl Print, s: &[u8]) {
    for line in s.split_inclusive(|b| *b == b'\n') {
        say_line(rt, line.strip_suffix(b"\n").unwrap_or(line));
    }
}

// Reads until the buffer is full, the input ends or a read fails, and returns how many bytes it put at the start of the buffer.
// (`print_log` hands an error on, and no crate below the two programs reads.) No index is counted: each read tells how many came.
fn read_full(input: &mut impl Read, buf: &mut [u8]) -> usize
    ensures { result ≤ length buf.new }
{
    let mut done = 0;
    while done < buf.len() {
        match input.read(&mut buf[done..]) {
            Ok(0) | Err(_) => break,
            Ok(n) => done += n,
        }
    }
    done
}

fn main(rt: HostRuntime) {
    let mut buffer = [0u8; 65536];
    let n = read_full(&mut rt.stdin(), &mut buffer);
    say_lines(&rt, &buffer[..n]);
    replies::say_refusals(&rt);
    replies::say_paper(&rt);
    replies::say_edges(&rt);
    room::say_did_room(&rt);
    room::say_site_room(&rt);
    room::say_reply_room(&rt);
}
