// Versions after done operations, and lists of histories that two arrays single out.
ghost use Rattle.std.specs.Prelude.{◌≡◌, [], ◌∷◌, ℕ, ◌≤◌, get_or};
ghost use Rattle.forms.specs.Lists.{keep, below};
ghost use Rattle.forms.specs.Limits.{history_limit};
ghost use Rattle.history.specs.Entries.{UsableEntry};
ghost use Rattle.history.specs.Lists.{Lists};
ghost use Rattle.table.specs.Arrays.{Tabulates, names, singled};
ghost use Rattle.table.specs.Rows.{HasRow, row_at};
ghost use Rattle.table.specs.Tables.{rows_in, Usable, version_from};

use super::rows::{count_at, item_in};
use super::search::push_number;
use forms::ReplyNumbers;
use forms::limits::HISTORIES;

// What a reply names histories for: a version that rose, or that the last update which kept it from being dry is gone.
// It is an enum and no closure: the contract names the test by it (`singled`).
#[derive(Clone, Copy, PartialEq, Eq)]
pub enum Naming {
    Risen,
    Dried,
}

// The histories' versions become those after the done operation in the row of entry e.
fn stamp(versions: &mut [u64; HISTORIES], rows: &[u64], e: usize)
    requires { HasRow rows.now e × UsableEntry (row_at rows.now e) }
    ensures { Tabulates 0 versions.new (λ (h : ℕ). version_from h (get_or versions.old h 0) (row_at rows.now e ∷ [])) }
{
    for j in 0..count_at(rows, e) {
        let x = item_in(rows, e, j);
        versions[x.history as usize] = x.version.0;
    }
}

// The histories' versions after the operations from place `from` to place `to`, from those before them.
pub fn advance(
    order: &[u8],
    rows: &[u64],
    mut versions: [u64; HISTORIES],
    from: usize,
    to: usize,
) -> [u64; HISTORIES]
    requires { Usable order.now rows.now to × (from ≤ to) }
    ensures { Tabulates 0 result (λ (h : ℕ). version_from h (get_or versions h 0) (rows_in order.now rows.now from to)) }
{
    for e in &order[from..to] {
        stamp(&mut versions, rows, *e as usize);
    }
    versions
}

// Whether a reply names a history by its number before and after.
fn is_named(naming: Naming, before: u64, after: u64) -> bool
    ensures { result ≡ names naming before after }
{
    match naming {
        Naming::Risen => before < after,
        Naming::Dried => 0 < before && after == 0,
    }
}

// The histories below `n` that a reply names by their numbers before and after, rising, as a list from `at` on; how many they are.
pub fn name_histories(
    naming: Naming,
    before: [u64; HISTORIES],
    after: [u64; HISTORIES],
    n: usize,
    lists: &mut ReplyNumbers,
    at: usize,
) -> usize
    requires { (n ≤ history_limit) × (at ≤ history_limit) }
    ensures { Lists lists.old at (keep (singled naming before after) (below n)) result lists.new }
{
    let mut count: usize = 0;
    for h in 0..n {
        if is_named(naming, before[h], after[h]) {
            push_number(lists, at + count, h as u64);
            count += 1;
        }
    }
    count
}
