// Searches over the entries from one place of the order to another. Order and rows are arguments of their own, and what is asked of them
// (`HasRow`, `Usable`) is asked of each call: C lends each by itself, and some calls may write the one, some the other.
ghost use Rattle.std.specs.Prelude.{◌≡◌, [], ◌∷◌, map, ◌+◌, ◌≤◌, ◌<◌, take};
ghost use Rattle.forms.specs.Lists.{any};
ghost use Rattle.forms.specs.Write.{Wrote};
ghost use Rattle.forms.specs.Limits.{update_limit};
ghost use Rattle.history.specs.Entries.{UsableEntry, cells_of};
ghost use Rattle.history.specs.Lists.{Lists};
ghost use Rattle.history.specs.Words.{histories_in};
ghost use Rattle.table.specs.Lists.{first_at};
ghost use Rattle.table.specs.Rows.{HasRow, row_at};
ghost use Rattle.table.specs.Tables.{rows_in, has_id, is_entry, id_of, can_run_entry, Usable, entry_of};

use super::EntryNumber;
use super::rows::{count_at, id_at, item_in, runs_at};
use forms::ReplyNumbers;
use history::book::{BookWords, history_at};
use history::turns::is_next;

// The number x at `at`. The caller sees to it that there is room.
pub fn push_number(lists: &mut ReplyNumbers, at: usize, x: u64)
    requires { at < 68 }
    ensures { Wrote lists.old at (x ∷ []) (at + 1) lists.new }
{
    lists[at] = x;
}

// Whether entry e has this id, and is in progress (or future, as asked): `running` is compared with the row, and switches nothing.
fn is_entry(rows: &[u64], e: usize, id: u64, running: bool) -> bool
    requires { HasRow rows.now e }
    ensures { result ≡ is_entry id running (row_at rows.now e) }
{
    id_at(rows, e) == id && runs_at(rows, e) == running
}

// Whether the line in the row of entry e can run: in each of its histories its place is next and the update may run. It is `all` of one
// test, as `never_at` is `any` of another: one function for both would be handed the test and the method.
fn can_run_at(rows: &[u64], e: usize, book: &BookWords) -> bool
    requires { HasRow rows.now e × UsableEntry (row_at rows.now e) }
    ensures { result ≡ can_run_entry (cells_of (histories_in book.now)) (row_at rows.now e) }
{
    (0..count_at(rows, e)).all(|j| {
        let x = item_in(rows, e, j);
        is_next(history_at(book, x.history as usize), x)
    })
}

// Whether an entry has this id: four at a time, as long as there are four. One by one, adds and finishes take six per cent more
// instructions (docs/BENCHMARK.md).
pub fn has_id(order: &[u8], rows: &[u64], from: usize, to: usize, id: u64) -> bool
    requires { Usable order.now rows.now to × (from ≤ to) }
    ensures { result ≡ any (has_id id) (rows_in order.now rows.now from to) }
{
    let mut rest = &order[from..to];
    while let [a, b, c, d, others @ ..] = rest {
        if id_at(rows, *a as usize) == id
            || id_at(rows, *b as usize) == id
            || id_at(rows, *c as usize) == id
            || id_at(rows, *d as usize) == id
        {
            return true;
        }
        rest = others;
    }
    rest.iter().any(|e| id_at(rows, *e as usize) == id)
}

// The first entry with this id that is in progress (or future, as asked).
pub fn find(
    order: &[u8],
    rows: &[u64],
    from: usize,
    to: usize,
    id: u64,
    running: bool,
) -> Option<usize>
    requires { Usable order.now rows.now to × (from ≤ to) }
    ensures { result ≡ first_at (is_entry id running) (rows_in order.now rows.now from to) }
{
    order[from..to]
        .iter()
        .position(|e| is_entry(rows, *e as usize, id, running))
}

// The first entry that can run as a did line.
pub fn first_ready_line(
    order: &[u8],
    rows: &[u64],
    from: usize,
    to: usize,
    book: &BookWords,
) -> Option<usize>
    requires { Usable order.now rows.now to × (from ≤ to) }
    ensures { result ≡ first_at (can_run_entry (cells_of (histories_in book.now))) (rows_in order.now rows.now from to) }
{
    order[from..to]
        .iter()
        .position(|e| can_run_at(rows, *e as usize, book))
}

// The ids of the entries, in their order, as a list from `at` on; how many they are.
pub fn ids(
    order: &[u8],
    rows: &[u64],
    from: usize,
    to: usize,
    lists: &mut ReplyNumbers,
    at: usize,
) -> usize
    requires { Usable order.now rows.now to × (from ≤ to) × (at ≤ update_limit) }
    ensures { Lists lists.old at (map id_of (rows_in order.now rows.now from to)) result lists.new }
{
    for (k, e) in order[from..to].iter().enumerate() {
        push_number(lists, at + k, id_at(rows, *e as usize));
    }
    to - from
}

// The entry of this id among the first n of the order.
pub fn entry_of(order: &[u8], rows: &[u64], n: usize, id: u64) -> Option<EntryNumber>
    requires { Usable order.now rows.now n }
    ensures { result ≡ entry_of rows.now id (take n order.now) }
{
    order[..n]
        .iter()
        .copied()
        .find(|e| id_at(rows, *e as usize) == id)
        .map(EntryNumber)
}
