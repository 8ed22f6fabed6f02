// "A finish drops every future operation that holds a never and names it .., oldest arrival first."
ghost use Rattle.std.specs.Prelude.{◌≡◌, true, [], ◌∷◌, ◌+◌, ◌≤◌, ◌<◌, length};
ghost use Rattle.forms.specs.Lists.{any, keep};
ghost use Rattle.history.specs.Cells.{never_in};
ghost use Rattle.history.specs.Entries.{UsableEntry, cells_of};
ghost use Rattle.history.specs.Words.{histories_in};
ghost use Rattle.table.specs.Overtaken.{overtaken_entry, row_in, Covers, Leaves, Examines, Drops};
ghost use Rattle.table.specs.Rows.{HasRow, row_at};
ghost use Rattle.table.specs.Tables.{queue_rows, Owns};
ghost use Rattle.table.specs.Tries.{entry_updates};

use super::rows::{count_at, item_in, runs_at};
use super::search::push_number;
use super::{Dropped, Table};
use forms::ReplyNumbers;
use history::book::{BookWords, history_at};
use history::busy::lower;
use history::timing::is_never;

// Whether an update of the operation in the row of entry e can never run.
fn never_at(rows: &[u64], e: usize, book: &BookWords) -> bool
    requires { HasRow rows.now e × UsableEntry (row_at rows.now e) }
    ensures { result ≡ any (never_in (cells_of (histories_in book.now))) (entry_updates (row_at rows.now e)) }
{
    (0..count_at(rows, e)).any(|j| {
        let x = item_in(rows, e, j);
        is_never(history_at(book, x.history as usize), x)
    })
}

// Whether the operation in the row of entry e is future and holds a never.
fn overtaken_at(rows: &[u64], e: usize, book: &BookWords) -> bool
    requires { HasRow rows.now e × UsableEntry (row_at rows.now e) }
    ensures { result ≡ overtaken_entry book.now (row_at rows.now e) }
{
    !runs_at(rows, e) && never_at(rows, e, book)
}

impl Dropped {
    // The operation at place i of those not done leaves the table: its id stands in the list, its updates count no longer, and its entry
    // is free.
    fn leave(
        self,
        order: &mut [u8],
        rows: &[u64],
        book: &mut BookWords,
        lists: &mut ReplyNumbers,
        at: usize,
        i: usize,
    ) -> Dropped
        requires owns { Owns self.table order.old rows.now × (i < self.table.queue) × (at + self.count < 68) }
        requires covers { Covers book.old (row_in self.table order.old rows.now i ∷ []) }
        ensures { Leaves (row_in self.table order.old rows.now i) self i order.old book.old lists.old at
            result order.new book.new lists.new }
    {
        let e = self.table.queued_at(order, rows, i);
        push_number(lists, at + self.count, e.id);
        lower(book, e);
        Dropped {
            table: self.table.remove(order, i),
            count: self.count + 1,
        }
    }

    // The operation at place i of those not done is examined, and leaves the table if it was overtaken.
    fn examine(
        self,
        order: &mut [u8],
        rows: &[u64],
        book: &mut BookWords,
        lists: &mut ReplyNumbers,
        at: usize,
        i: usize,
    ) -> Dropped
        requires owns { Owns self.table order.old rows.now × (i < self.table.queue) }
        requires count_bound { overtaken_entry book.old (row_in self.table order.old rows.now i) ≡ true → at + self.count < 68 }
        requires covers { Covers book.old (row_in self.table order.old rows.now i ∷ []) }
        ensures { Examines (overtaken_entry book.old (row_in self.table order.old rows.now i))
            (row_in self.table order.old rows.now i) self i order.old book.old lists.old at
            result order.new book.new lists.new }
    {
        let number = order[self.table.finished + i] as usize;
        if overtaken_at(rows, number, book) {
            self.leave(order, rows, book, lists, at, i)
        } else {
            self
        }
    }
}

impl Table {
    // The future operations that hold a never leave the table, oldest arrival first: the list from `at` on has their ids, their updates
    // count no longer, and their entries are free. The others keep their order.
    pub fn drop_overtaken(
        self,
        order: &mut [u8],
        rows: &[u64],
        book: &mut BookWords,
        lists: &mut ReplyNumbers,
        at: usize,
    ) -> Dropped
        requires owns { Owns self order.old rows.now }
        requires rows_bound { at + length (keep (overtaken_entry book.old) (queue_rows self order.old rows.now)) ≤ 68 }
        requires covers { Covers book.old (queue_rows self order.old rows.now) }
        ensures { Drops self order.old rows.now book.old lists.old at result order.new book.new lists.new }
    {
        let mut d = Dropped {
            table: self,
            count: 0,
        };
        for seen in 0..self.queue {
            d = d.examine(order, rows, book, lists, at, seen - d.count);
        }
        d
    }
}
