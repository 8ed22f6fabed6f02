// What blocks an update: of each history, whether an update of some entries is in it, and whether a strong one is. That a row is an entry's
// and usable, and that order and rows fit, is asked of each call as in `search`.
ghost use Rattle.std.specs.Prelude.{◌≡◌, ◌≤◌, ◌<◌, length};
ghost use Rattle.forms.specs.Limits.{history_limit};
ghost use Rattle.history.specs.Entries.{UsableEntry, item_update};
ghost use Rattle.table.specs.Rows.{HasRow, row_at};
ghost use Rattle.table.specs.Tables.{rows_in, Usable};
ghost use Rattle.table.specs.Tries.{entry_updates, held_of, gather, MarksOf, More, free_by};

use super::Marks;
use super::rows::{count_at, item_in, runs_at};
use forms::limits::HISTORIES;
use history::Item;
use history::update_rules::is_strong;

// The marks with those of the operation in the row of entry e.
pub fn marked(mut m: Marks, rows: &[u64], e: usize) -> Marks
    requires has_row { HasRow rows.now e × UsableEntry (row_at rows.now e) }
    requires any_len { (length m.any ≡ history_limit) × (length m.strong ≡ history_limit) }
    ensures { More result m (entry_updates (row_at rows.now e)) }
{
    for j in 0..count_at(rows, e) {
        let x = item_in(rows, e, j);
        m.any[x.history as usize] = true;
        m.strong[x.history as usize] |= is_strong(x.rule);
    }
    m
}

// The marks with those of the operation in the row of entry e, where it is in progress.
fn marked_by(m: Marks, rows: &[u64], e: usize) -> Marks
    requires has_row { HasRow rows.now e × UsableEntry (row_at rows.now e) }
    requires any_len { (length m.any ≡ history_limit) × (length m.strong ≡ history_limit) }
    ensures { More result m (held_of (row_at rows.now e)) }
{
    if runs_at(rows, e) {
        marked(m, rows, e)
    } else {
        m
    }
}

// Whether an update is not blocked, by the marks of what is in progress.
pub fn is_free(m: Marks, x: Item) -> bool
    requires { x.history < history_limit }
    ensures { result ≡ free_by m (item_update x) }
{
    if is_strong(x.rule) {
        !m.any[x.history as usize]
    } else {
        !m.strong[x.history as usize]
    }
}

// The marks of what is in progress.
pub fn in_progress(order: &[u8], rows: &[u64], from: usize, to: usize) -> Marks
    requires { Usable order.now rows.now to × (from ≤ to) }
    ensures { MarksOf result (gather held_of (rows_in order.now rows.now from to)) }
{
    let mut m = Marks {
        any: [false; HISTORIES],
        strong: [false; HISTORIES],
    };
    for e in &order[from..to] {
        m = marked_by(m, rows, *e as usize);
    }
    m
}
