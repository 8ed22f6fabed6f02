// Calls of a slot of a module without text, one round after the other: for measuring what they cost beside those of a site (rounds.rt). A
// trait over both would say again what each call of a site and of a slot is lent and promises, and call the same calls.
ghost use Rattle.std.specs.Prelude.{[], ◌<◌, length};
ghost use Rattle.compact.specs.Module.{Move, reply_of, made};
ghost use Rattle.site.specs.Model.{lent, received};
ghost use Rattle.c_api.specs.Rounds.{work_calls, mark_calls, round_calls, Rounds};
ghost use Rattle.c_api.specs.SlotRounds.{LoneIn, ReachesIn, Serves};

use super::rounds::asked_inc;
use forms::{LogNumber, ReplyNumbers};
use history::book::{BookWords, WIDTH};
use module::Module;
use site::Site;
use table::rows::ROW;

// An operation is added and finished.
fn slot_operation(
    m: Module,
    slot: usize,
    log: &mut [u8],
    rows: &mut [u64],
    numbers: &mut [u8],
    book: &mut BookWords,
    lists: &mut ReplyNumbers,
    id: u64,
) -> Module
    requires { LoneIn slot m (received log.old rows.old numbers.old book.old) }
    ensures { ReachesIn slot m (lent log.old rows.old numbers.old book.old lists.old) (work_calls id) result
        (lent log.new rows.new numbers.new book.new lists.new) }
{
    let asked = asked_inc(id % 4, id / 4 + 1);
    let a = m.add(slot, log, rows, numbers, book, lists, id, asked);
    let f = a.after.finish(slot, log, rows, numbers, book, lists, id);
    f.after
}

// The first n operations become persistent and stable.
fn slot_mark(
    m: Module,
    slot: usize,
    log: &mut [u8],
    rows: &[u64],
    numbers: &mut [u8],
    book: &mut BookWords,
    lists: &mut ReplyNumbers,
    n: u64,
) -> Module
    requires { LoneIn slot m (received log.old rows.now numbers.old book.old) }
    ensures { ReachesIn slot m (lent log.old rows.now numbers.old book.old lists.old) (mark_calls n) result
        (lent log.new rows.now numbers.new book.new lists.new) }
{
    let p = m.persistent(slot, log, rows, numbers, book, lists, LogNumber(n));
    let s = p
        .after
        .stable(slot, log, rows, numbers, book, lists, LogNumber(n));
    s.after
}

// The operation with this id, and after every 32nd the marks.
fn slot_round(
    m: Module,
    slot: usize,
    log: &mut [u8],
    rows: &mut [u64],
    numbers: &mut [u8],
    book: &mut BookWords,
    lists: &mut ReplyNumbers,
    id: u64,
) -> Module
    requires lone_in { LoneIn slot m (received log.old rows.old numbers.old book.old) }
    requires id_bound { id < 18446744073709551615 }
    ensures { ReachesIn slot m (lent log.old rows.old numbers.old book.old lists.old) (round_calls id) result
        (lent log.new rows.new numbers.new book.new lists.new) }
{
    let worked = slot_operation(m, slot, log, rows, numbers, book, lists, id);
    if id % 32 == 31 {
        return slot_mark(worked, slot, log, rows, numbers, book, lists, id + 1);
    }
    worked
}

// The operations with the ids below n are added and finished; gives the bytes of the slot's log then in use.
fn slot_serve(
    first: Module,
    slot: usize,
    log: &mut [u8],
    rows: &mut [u64],
    numbers: &mut [u8],
    book: &mut BookWords,
    n: u64,
) -> usize
    requires { LoneIn slot first (received log.old rows.old numbers.old book.old) }
    ensures { Serves slot first (lent log.old rows.old numbers.old book.old []) n result log.new }
{
    let mut m = first;
    let mut lists = [0u64; 68];
    for id in 0..n {
        m = slot_round(m, slot, log, rows, numbers, book, &mut lists, id);
    }
    m.slots[slot].site.used
}

// Opens a site of four histories in a slot of a module, adds and finishes the operations with the ids below n there, and gives the bytes of
// its log then in use: what a site alone does, since nobody opens the others.
pub fn slot_add_and_finish(log: &mut [u8], slot: usize, n: u64) -> usize
    ensures { Rounds (reply_of (Move.Open slot 4 (length log.old)) made) n log.old result log.new }
{
    let mut rows = [0u64; Module::ENTRIES * ROW];
    let mut numbers = [0u8; 256];
    let mut book = [0u64; Site::HISTORIES * WIDTH];
    let empty = Module::new(&mut numbers);
    let m = empty.open(slot, log, &mut book, 4).after;
    if slot < Module::SLOTS && m.slots[slot].opened {
        return slot_serve(m, slot, log, &mut rows, &mut numbers, &mut book, n);
    }
    0
}
