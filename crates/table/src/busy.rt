// The numbers of updates that are future, in progress or volatile, over some entries.
ghost use Rattle.std.specs.Prelude.{ℕ, ◌≤◌, get_or};
ghost use Rattle.forms.specs.Lists.{sum};
ghost use Rattle.history.specs.Words.{busy_in, entry_in, CountsMore};
ghost use Rattle.table.specs.Tables.{rows_in, Usable};

use super::rows::row_at;
use history::book::BookWords;
use history::busy::lower;

// The updates of the operations from place `from` to place `to` are no longer counted.
pub fn lower_rows(order: &[u8], rows: &[u64], book: &mut BookWords, from: usize, to: usize)
    requires usable { Usable order.now rows.now to × (from ≤ to) }
    requires by_index { (h : ℕ) → 1 ≤ sum (entry_in h) (rows_in order.now rows.now from to) →
        sum (entry_in h) (rows_in order.now rows.now from to) ≤ get_or (busy_in book.old) h 0 }
    ensures { CountsMore (rows_in order.now rows.now from to) book.new book.old }
{
    for e in &order[from..to] {
        lower(book, row_at(rows, *e as usize));
    }
}
