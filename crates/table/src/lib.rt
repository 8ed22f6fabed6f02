// The table of a site's live operations. Their rows stand in an array of numbers and the order of their entries in a list of entry numbers,
// both lent by the caller; an operation keeps its entry until it leaves, and only its number changes its place.
#![tactic(auto)]

ghost use Rattle.std.specs.Prelude.{◌≡◌, ◌+◌, ◌-◌, ◌≤◌, ◌<◌, length, get_or};
ghost use Rattle.forms.specs.Limits.{live_limit};
ghost use Rattle.table.specs.Order.{moved, turned};
ghost use Rattle.table.specs.Rows.{HasRow, row_at, PutRow, PutMark, PutNoted};
ghost use Rattle.table.specs.Tables.{live_count};

use forms::LogNumber;
use forms::limits::HISTORIES;
use history::Entry;
use order::{move_back, move_forward, turn};
use rows::{put_mark, put_row, row_at};

pub mod blocking;
pub mod busy;
pub mod order;
pub mod overtaken;
pub mod rows;
pub mod search;
pub mod tries;
pub mod versions;

// The number of an entry. (In the field's terms: a slot of the table.)
#[derive(Clone, Copy, PartialEq, Eq)]
pub struct EntryNumber(pub u8);

// Of each history: whether an update of those counted is in it, and whether a strong one is. They are two arrays and not one of a kind with
// three cases: `marked` sets each by itself and `is_free` asks one alone, where a kind would be matched.
#[derive(Clone, Copy, PartialEq, Eq)]
pub struct Marks {
    pub any: [bool; HISTORIES],
    pub strong: [bool; HISTORIES],
}

// The table by value: how many entries are done and have not left it, and how many are not done (or wait).
#[derive(Clone, Copy, PartialEq, Eq)]
pub struct Table {
    pub finished: usize,
    pub queue: usize,
}

// The table after operations that were overtaken have left it, and how many they were.
#[derive(Clone, Copy, PartialEq, Eq)]
pub struct Dropped {
    pub table: Table,
    pub count: usize,
}

impl Table {
    // No live operations.
    pub fn empty() -> Table
        ensures { result ≡ record { finished = 0; queue = 0 } }
    {
        Table {
            finished: 0,
            queue: 0,
        }
    }

    // The row of the entry at place i of those not done.
    pub fn queued_at(self, order: &[u8], rows: &[u64], i: usize) -> Entry
        requires { (self.finished + i < length order.now) × HasRow rows.now (get_or order.now (self.finished + i) 0) }
        ensures { result ≡ row_at rows.now (get_or order.now (self.finished + i) 0) }
    {
        row_at(rows, order[self.finished + i] as usize)
    }

    // One operation more behind those not done, in the first entry that is free. The caller sees to it that there is one.
    pub fn push(self, order: &[u8], rows: &mut [u64], e: Entry) -> Table
        requires { (live_count self < length order.now) × HasRow rows.old (get_or order.now (live_count self) 0) }
        ensures { (result ≡ record { finished = self.finished; queue = self.queue + 1 }) ×
            PutRow (get_or order.now (live_count self) 0) e rows.old rows.new }
    {
        let free = order[self.finished + self.queue];
        put_row(rows, free as usize, e);
        Table {
            queue: self.queue + 1,
            ..self
        }
    }

    // The last of the done ones has the row e from now on.
    pub fn rewrite_last(self, order: &[u8], rows: &mut [u64], e: Entry)
        requires { (0 < self.finished) × (self.finished ≤ length order.now)
            × HasRow rows.old (get_or order.now (self.finished - 1) 0) }
        ensures { PutRow (get_or order.now (self.finished - 1) 0) e rows.old rows.new }
    {
        let number = order[self.finished - 1];
        put_row(rows, number as usize, e);
    }

    // The operation at place i of those not done leaves the table: its entry is free.
    pub fn remove(self, order: &mut [u8], i: usize) -> Table
        requires { (i < self.queue) × (live_count self ≤ length order.old) }
        ensures { (result ≡ record { finished = self.finished; queue = self.queue - 1 }) ×
            (order.new ≡ moved (self.finished + i) (live_count self - 1) order.old) }
    {
        let last = self.finished + self.queue - 1;
        move_back(order, self.finished + i, last);
        Table {
            queue: self.queue - 1,
            ..self
        }
    }

    // The operation at place i of those not done is done, the stable mark being m: it keeps its entry, whose number is the last of the done
    // ones, and the mark is noted in its row.
    pub fn finish(self, order: &mut [u8], rows: &mut [u64], i: usize, m: LogNumber) -> Table
        requires { (i < self.queue) × (live_count self ≤ length order.old)
            × HasRow rows.old (get_or order.old (self.finished + i) 0) }
        ensures { (result ≡ record { finished = self.finished + 1; queue = self.queue - 1 }) ×
            (order.new ≡ moved (self.finished + i) self.finished order.old) ×
            PutMark (get_or order.old (self.finished + i) 0) m.0 rows.old rows.new }
    {
        let number = order[self.finished + i];
        put_mark(rows, number as usize, m);
        move_forward(order, self.finished + i, self.finished);
        Table {
            finished: self.finished + 1,
            queue: self.queue - 1,
        }
    }

    // One done operation more behind the done ones, in the first entry that is free, with the stable mark m when its line was written. None
    // is future, in progress or waiting, and the caller sees to it that an entry is free.
    pub fn push_done(self, order: &[u8], rows: &mut [u64], e: Entry, m: LogNumber) -> Table
        requires { (self.finished < length order.now) × HasRow rows.old (get_or order.now self.finished 0) }
        ensures { (result ≡ record { finished = self.finished + 1; queue = self.queue }) ×
            PutNoted (get_or order.now self.finished 0) e m.0 rows.old rows.new }
    {
        let number = order[self.finished];
        put_row(rows, number as usize, e);
        put_mark(rows, number as usize, m);
        Table {
            finished: self.finished + 1,
            ..self
        }
    }

    // The first k done operations leave the table: their entries are free.
    pub fn drop_first(self, order: &mut [u8], k: usize) -> Table
        requires { (k ≤ self.finished) × (live_count self ≤ length order.old) × (length order.old ≤ live_limit) }
        ensures { (result ≡ record { finished = self.finished - k; queue = self.queue }) ×
            (order.new ≡ turned k (live_count self) order.old) }
    {
        turn(order, k, self.finished + self.queue);
        Table {
            finished: self.finished - k,
            ..self
        }
    }
}
