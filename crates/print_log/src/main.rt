// Prints the log that a session leaves: reads the session from standard input and writes each line of its log to standard output,
// with the log's length up to and including that line beneath it. What is written is proved, from the bytes read to the bytes
// printed (`list_session`); that they are read and written is not.
#![tactic(auto)]

mod listing;
mod paper;

ghost use Rattle.std.specs.Prelude.{◌≡◌, length};
ghost use Rattle.std.specs.Io.{ReadsAtMost};

use std::io;
use std::io::{Read, Write};

// Room for a session.
const INPUT_BYTES: usize = 1048576;

// Room for the listing of every log of 65,536 bytes.
const PAGE_BYTES: usize = 720896;

// A buffer of zeros.
fn zeros<const N: usize>() -> [u8; N]
    ensures { N ≡ length result }
{
    [0; N]
}

// Reads until the buffer is full or the input ends: how many bytes stand at the buffer's start. No index is counted: each read tells how
// many came.
fn read_full<R: Read>(reader: &mut R, buf: &mut [u8]) -> io::Result<usize>
    ensures { ReadsAtMost result buf.new }
{
    let mut done = 0;
    while done < buf.len() {
        let n = reader.read(&mut buf[done..])?;
        if n == 0 {
            break;
        }
        done += n;
    }
    Ok(done)
}

fn main(rt: HostRuntime) -> io::Result<()> {
    let mut input = zeros::<INPUT_BYTES>();
    let mut page = zeros::<PAGE_BYTES>();
    let n = read_full(&mut rt.stdin(), &mut input)?;
    if INPUT_BYTES <= n {
        return eprintln!(rt;
            "This session has 1,048,576 characters or more; its log is not listed."
        );
    }
    let m = paper::list_session(&input[..n], &mut page);
    rt.stdout().write_all(&page[..m])
}
