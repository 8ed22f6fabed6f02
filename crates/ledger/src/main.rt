// The fitting ledger: a session's forms from standard input, as they come, and its replies to standard output.
#![tactic(auto)]

ghost use Rattle.std.specs.Prelude.{[], ◌≤◌, length};
ghost use Rattle.forms.specs.Limits.{reply_limit};
ghost use Rattle.session.specs.Feeding.{UsablePartial};
ghost use Rattle.site.specs.Model.{received, lent};
ghost use Rattle.stream.specs.Model.{ValidStream};

use forms::ReplyNumbers;
use history::book::{BookWords, WIDTH};
use site::Site;
use std::io;
use std::io::{Read, Write};
use stream::Stream;
use table::order::Order;
use table::rows::{ROW, Rows};

// The stream after some input, and whether to go on, or how reading or writing failed.
#[derive(Drop)]
struct Serving {
    stream: Stream,
    on: io::Result<bool>,
}

// Feeds all bytes of a chunk, and writes the replies; it stops where a write fails. No index is counted: the stream tells how much it took.
fn answer<W: Write>(
    start: Stream,
    log: &mut [u8],
    rows: &mut Rows,
    order: &mut Order,
    book: &mut BookWords,
    lists: &mut ReplyNumbers,
    chunk: &[u8],
    out: &mut [u8],
    writer: &mut W,
) -> Serving
    requires valid_stream { ValidStream start (received log.old rows.old order.old book.old) }
    requires reply_limit_in_bounds { reply_limit ≤ length out.old }
    ensures { ValidStream result.stream (lent log.new rows.new order.new book.new []) }
{
    let mut stream = start;
    let mut at: usize = 0;
    while at < chunk.len() {
        let f = stream.feed(log, rows, order, book, lists, &chunk[at..], out);
        let n = f.written;
        at += f.used;
        stream = f.stream;
        if let Err(e) = writer.write_all(&out[..n]) {
            return Serving { stream, on: Err(e) };
        }
    }
    Serving {
        stream,
        on: Ok(true),
    }
}

// Writes the reply to an unended rest of the input.
fn close<W: Write>(stream: Stream, out: &mut [u8], writer: &mut W) -> io::Result<()>
    requires { UsablePartial stream.begun }
{
    if let Some(n) = stream.finish(out, 0) {
        writer.write_all(&out[..n])?;
    }
    Ok(())
}

// Reads what has come, and answers it; at the end of the input, the unended rest.
fn step<R: Read, W: Write>(
    stream: Stream,
    log: &mut [u8],
    rows: &mut Rows,
    order: &mut Order,
    book: &mut BookWords,
    lists: &mut ReplyNumbers,
    chunk: &mut [u8],
    out: &mut [u8],
    reader: &mut R,
    writer: &mut W,
) -> Serving
    requires valid_stream { ValidStream stream (received log.old rows.old order.old book.old) }
    requires reply_limit_in_bounds { reply_limit ≤ length out.old }
    ensures { ValidStream result.stream (lent log.new rows.new order.new book.new []) }
{
    match reader.read(chunk) {
        Ok(0) => Serving {
            stream,
            on: close(stream, out, writer).map(|()| false),
        },
        Ok(n) => answer(
            stream,
            log,
            rows,
            order,
            book,
            lists,
            &chunk[..n],
            out,
            writer,
        ),
        Err(e) => Serving { stream, on: Err(e) },
    }
}

// A proved loop has to end, and nothing says that the input does: it has a number of turns that no run uses up.
fn serve<R: Read, W: Write>(
    log: &mut [u8],
    rows: &mut Rows,
    order: &mut Order,
    book: &mut BookWords,
    lists: &mut ReplyNumbers,
    chunk: &mut [u8],
    out: &mut [u8],
    reader: &mut R,
    writer: &mut W,
) -> io::Result<()>
    requires { reply_limit ≤ length out.old }
{
    let mut stream = Stream::start();
    for _ in 0..u64::MAX {
        let s = step(
            stream, log, rows, order, book, lists, chunk, out, reader, writer,
        );
        stream = s.stream;
        if !s.on? {
            break;
        }
    }
    Ok(())
}

fn main(rt: HostRuntime) -> io::Result<()> {
    let mut log = [0u8; 65536];
    let mut rows = [0u64; Site::LIVE * ROW];
    let mut order = [0u8; Site::LIVE];
    let mut book = [0u64; Site::HISTORIES * WIDTH];
    let mut lists = [0u64; Site::UPDATES + Site::LIVE];
    let mut chunk = [0u8; 65536];
    let mut out = [0u8; 65536];
    serve(
        &mut log,
        &mut rows,
        &mut order,
        &mut book,
        &mut lists,
        &mut chunk,
        &mut out,
        &mut rt.stdin(),
        &mut rt.stdout(),
    )
}
