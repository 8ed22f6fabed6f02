// An operation's updates against its histories: whether it is its turn, and whether one has run, is overtaken or can't run any more.
ghost use Rattle.std.specs.Prelude.{◌≡◌, ◌+◌, ◌↔◌, IsTrue};
ghost use Rattle.forms.specs.Lists.{any};
ghost use Rattle.rules.specs.Book.{runs_at};
ghost use Rattle.history.specs.Entries.{cell_of, cells_of, item_change, operation_of, did_of_entry};
ghost use Rattle.history.specs.Entries.{UsableEntry, can_run_in};
ghost use Rattle.history.specs.Cells.{stale_in, ran_at, overtaken_at, highest_at, found_with, findings_in};
ghost use Rattle.history.specs.Words.{histories_in};

use super::book::{BookWords, history_at};
use super::update_rules::{is_ordered, is_strong, logged_as, may_run, orders};
use super::{Entry, Findings, History, Item};
use forms::Place;

// Whether a place is the next one behind a history's: none is behind the highest.
fn follows(h: History, place: Place) -> bool
    ensures { IsTrue result ↔ (place.0 ≡ h.place.0 + 1) }
{
    0 < place.0 && place.0 - 1 == h.place.0
}

// Whether the item's place is the history's next, and it may run.
pub fn is_next(h: History, x: Item) -> bool
    ensures { result ≡ runs_at (cell_of h) (item_change x) }
{
    follows(h, x.place) && may_run(logged_as(x.rule), h.version, x.version)
}

// Whether a strong ordered item's version is not above the history's.
fn has_run(h: History, x: Item) -> bool
    ensures { result ≡ ran_at (cell_of h) x }
{
    orders(x.rule) && x.version.0 <= h.version.0
}

// Whether a reading item's version is below the history's.
fn is_overtaken(h: History, x: Item) -> bool
    ensures { result ≡ overtaken_at (cell_of h) x }
{
    !is_strong(x.rule) && x.version.0 < h.version.0
}

// Whether an item is `unk` in a history at the highest version.
fn is_at_highest(h: History, x: Item) -> bool
    ensures { result ≡ highest_at (cell_of h) x }
{
    !is_ordered(x.rule) && h.version.0 == u64::MAX
}

// Whether in each history of a did line its place is next and the update may run.
pub fn can_run(book: &BookWords, e: Entry) -> bool
    requires { UsableEntry e }
    ensures { result ≡ can_run_in (cells_of (histories_in book.now)) (did_of_entry e) }
{
    for x in &e.items[..e.count] {
        if !is_next(history_at(book, x.history as usize), *x) {
            return false;
        }
    }
    true
}

// Whether a did line has a place that is not above its history's.
pub fn is_stale(book: &BookWords, e: Entry) -> bool
    requires { UsableEntry e }
    ensures { result ≡ any (stale_in (cells_of (histories_in book.now))) (did_of_entry e).changes }
{
    e.items[..e.count].iter().any(|x| x.place.0 <= history_at(book, x.history as usize).place.0)
}

// What was found, with what an item adds to it.
fn found(f: Findings, h: History, x: Item) -> Findings
    ensures { result ≡ found_with f (cell_of h) x }
{
    Findings {
        strong: f.strong || is_strong(x.rule),
        orders: f.orders || orders(x.rule),
        ran: f.ran || has_run(h, x),
        overtaken: f.overtaken || is_overtaken(h, x),
        highest: f.highest || is_at_highest(h, x),
    }
}

// What the checks 6, 8, 9 and 17 find in an operation, in one pass over its updates.
pub fn findings(book: &BookWords, e: Entry) -> Findings
    requires { UsableEntry e }
    ensures { result ≡ findings_in (cells_of (histories_in book.now)) (operation_of e).updates }
{
    let mut f = Findings {
        strong: false,
        orders: false,
        ran: false,
        overtaken: false,
        highest: false,
    };
    for x in &e.items[..e.count] {
        f = found(f, history_at(book, x.history as usize), *x);
    }
    f
}
