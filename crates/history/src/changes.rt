// What an operation does to its histories, and the versions, places and values that it gets.
ghost use Rattle.std.specs.Prelude.{◌≡◌, true, ◌≤◌, ◌<◌, get_or};
ghost use Rattle.forms.specs.Lists.{all};
ghost use Rattle.rules.specs.Book.{entered};
ghost use Rattle.forms.specs.Decimal.{top};
ghost use Rattle.forms.specs.declared.Rule.TheVariants.{Unk};
ghost use Rattle.forms.specs.Limits.{live_limit, update_limit};
ghost use Rattle.rules.specs.Rules.{logged_as};
ghost use Rattle.history.specs.Entries.{cell_of, cells_of, items_of, no_item, operation_of};
ghost use Rattle.history.specs.Entries.{UsableItem, UsableEntry, may_run_in};
ghost use Rattle.history.specs.Cells.{values_in};
ghost use Rattle.history.specs.Cells.{LowPlaces, stamped, Stamps};
ghost use Rattle.history.specs.Words.{histories_in, AppliesIn};
ghost use Rattle.history.specs.Lists.{Lists};

use super::book::{BookWords, history_at, put_history};
use super::entries::item_at;
use super::update_rules::{is_strong, logged_as, profile_after, version_after};
use super::{Entry, History, Item};
use forms::{Place, ReplyNumbers};
use std::array;

// A history after a change.
fn apply_item(h: History, x: Item) -> History
    requires { UsableItem x × (h.place.0 < top) }
    ensures { cell_of result ≡ entered (logged_as x.rule) x.version.0 x.operand (cell_of h) }
{
    let version = if is_strong(x.rule) {
        x.version
    } else {
        h.version
    };
    History {
        profile: profile_after(x.rule, x.operand, h.profile),
        version,
        place: Place(h.place.0 + 1),
    }
}

// The changes of a did line, made in its histories.
pub fn apply(book: &mut BookWords, e: Entry)
    requires { UsableEntry e × LowPlaces (histories_in book.old) e }
    ensures { AppliesIn e book.old book.new }
{
    for x in &e.items[..e.count] {
        let at = x.history as usize;
        let h = history_at(book, at);
        put_history(book, at, apply_item(h, *x));
    }
}

// An item that is done in its history: `unk` becomes `inc` with the version it got, and the place is the next.
fn stamp_item(h: History, x: Item) -> Item
    requires { (x.rule ≡ Unk → h.version.0 < top) × (h.place.0 < top) }
    ensures { result ≡ stamped (cell_of h) x }
{
    Item {
        rule: logged_as(x.rule),
        version: version_after(x.rule, h.version, x.version),
        place: Place(h.place.0 + 1),
        ..x
    }
}

// Item i of an entry, done in its history.
fn stamp_at(book: &BookWords, e: Entry, i: usize) -> Item
    requires { UsableEntry e × LowPlaces (histories_in book.now) e
        × (all (may_run_in (cells_of (histories_in book.now))) (operation_of e).updates ≡ true) × (i < update_limit) }
    ensures { result ≡ stamped (cells_of (histories_in book.now) (get_or (items_of e) i no_item).history)
        (get_or (items_of e) i no_item) }
{
    let x = item_at(e, i);
    stamp_item(history_at(book, x.history as usize), x)
}

// The did line that finishing an operation writes.
pub fn stamp(book: &BookWords, e: Entry) -> Entry
    requires { UsableEntry e × LowPlaces (histories_in book.now) e
        × (all (may_run_in (cells_of (histories_in book.now))) (operation_of e).updates ≡ true) }
    ensures { Stamps (cells_of (histories_in book.now)) e result }
{
    Entry {
        running: false,
        items: array::from_fn(|i| stamp_at(book, e, i)),
        ..e
    }
}

// The profiles of an entry's histories, in the entry's order, as a list from `at` on; how many they are.
pub fn values_after(book: &BookWords, e: Entry, lists: &mut ReplyNumbers, at: usize) -> usize
    requires { UsableEntry e × (at ≤ live_limit) }
    ensures { Lists lists.old at (values_in (cells_of (histories_in book.now)) (operation_of e).updates) result
        lists.new }
{
    for (i, x) in e.items[..e.count].iter().enumerate() {
        lists[at + i] = history_at(book, x.history as usize).profile;
    }
    e.count
}
