// Trying the future operations once, oldest arrival first.
ghost use Rattle.std.specs.Prelude.{◌≡◌, ◌+◌, ◌≤◌, ◌<◌};
ghost use Rattle.forms.specs.Lists.{all};
ghost use Rattle.forms.specs.Limits.{history_limit};
ghost use Rattle.history.specs.Entries.{UsableEntry, cells_of, item_update, operation_of};
ghost use Rattle.history.specs.Words.{histories_in};
ghost use Rattle.table.specs.Rows.{HasRow, row_at};
ghost use Rattle.table.specs.Tables.{Owns};
ghost use Rattle.table.specs.Tries.{entry_updates, ready_by, starts_by, Tries};

use super::blocking::{in_progress, is_free, marked};
use super::rows::{count_at, id_at, item_in, runs_at, start_row};
use super::search::push_number;
use super::{Marks, Table};
use forms::ReplyNumbers;
use history::Item;
use history::book::{BookWords, history_at};
use history::update_rules::may_run;

// Whether an update may run and is not blocked.
fn is_ready(book: &BookWords, m: Marks, x: Item) -> bool
    requires { x.history < history_limit }
    ensures { result ≡ ready_by (cells_of (histories_in book.now)) m (item_update x) }
{
    may_run(
        x.rule,
        history_at(book, x.history as usize).version,
        x.version,
    ) && is_free(m, x)
}

// Whether each update of the operation in the row of entry e may run and is not blocked.
fn all_ready(book: &BookWords, m: Marks, rows: &[u64], e: usize) -> bool
    requires { HasRow rows.now e × UsableEntry (row_at rows.now e) }
    ensures { result ≡ all (ready_by (cells_of (histories_in book.now)) m) (entry_updates (row_at rows.now e)) }
{
    (0..count_at(rows, e)).all(|j| is_ready(book, m, item_in(rows, e, j)))
}

// Whether the row of entry e is a future operation that is ready.
fn may_start(book: &BookWords, m: Marks, rows: &[u64], e: usize) -> bool
    requires { HasRow rows.now e × UsableEntry (row_at rows.now e) }
    ensures { result ≡ starts_by (cells_of (histories_in book.now)) m (operation_of (row_at rows.now e)) }
{
    !runs_at(rows, e) && all_ready(book, m, rows, e)
}

impl Table {
    // One pass over the future operations: each is examined once, oldest first. The list from `at` on has the ids made ready; how
    // many they are.
    pub fn try_all(
        self,
        order: &[u8],
        rows: &mut [u64],
        book: &BookWords,
        lists: &mut ReplyNumbers,
        at: usize,
    ) -> usize
        requires { Owns self order.now rows.old × (at + self.queue ≤ 68) }
        ensures { Tries (cells_of (histories_in book.now)) self order.now rows.old rows.new lists.old at result lists.new }
    {
        let from = self.finished;
        let to = self.finished + self.queue;
        let mut m = in_progress(order, rows, from, to);
        let mut ready: usize = 0;
        for e in &order[from..to] {
            let number = *e as usize;
            if may_start(book, m, rows, number) {
                m = marked(m, rows, number);
                push_number(lists, at + ready, id_at(rows, number));
                start_row(rows, number);
                ready += 1;
            }
        }
        ready
    }
}
