// The numbers of updates that are future, in progress or volatile: an entry's updates more, or fewer.
ghost use Rattle.std.specs.Prelude.{[], ◌∷◌, ℕ, ◌+◌, ◌≤◌, get_or};
ghost use Rattle.forms.specs.Decimal.{top};
ghost use Rattle.history.specs.Entries.{UsableEntry};
ghost use Rattle.history.specs.Words.{busy_in, entry_in, CountsMore};

use super::Entry;
use super::book::{BUSY, BookWords, WIDTH};

// Each history of the entry's updates has one more of them.
pub fn raise(book: &mut BookWords, e: Entry)
    requires { UsableEntry e × ((h : ℕ) → 1 ≤ entry_in h e → get_or (busy_in book.old) h 0 + entry_in h e ≤ top) }
    ensures { CountsMore (e ∷ []) book.old book.new }
{
    for x in &e.items[..e.count] {
        book[WIDTH * (x.history as usize) + BUSY] += 1;
    }
}

// Each history of the entry's updates has one fewer of them.
pub fn lower(book: &mut BookWords, e: Entry)
    requires { UsableEntry e × ((h : ℕ) → 1 ≤ entry_in h e → entry_in h e ≤ get_or (busy_in book.old) h 0) }
    ensures { CountsMore (e ∷ []) book.new book.old }
{
    for x in &e.items[..e.count] {
        book[WIDTH * (x.history as usize) + BUSY] -= 1;
    }
}
