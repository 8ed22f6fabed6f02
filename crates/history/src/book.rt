// Histories in words: reading and writing the histories of a site in an array of numbers.
ghost use Rattle.std.specs.Prelude.{◌≡◌, ◌≤◌, ◌<◌, get_or};
ghost use Rattle.forms.specs.Limits.{history_limit};
ghost use Rattle.history.specs.Entries.{no_history};
ghost use Rattle.history.specs.Words.{width, histories_in, column_from, PutHistory, PutColumn, Cleared, Copied};

use super::History;
use forms::limits::HISTORIES;
use forms::{Place, Version};
use std::array;

// How many numbers a history has: profile, version, place, persistent version, stable version, and how many of its updates are future, in
// progress or volatile.
pub const WIDTH: usize = 6;

// The histories of a site, one behind the other: those of history i begin at WIDTH * i. They are numbers, since C lends the array. How many
// of them a site has comes out of numbers that C lends too: a type that says that it is at most 16 would be made by a test that no call
// needs, so each function here that takes it asks.
pub type BookWords = [u64; HISTORIES * WIDTH];

// Where a history's numbers stand behind its profile.
pub const VERSION: usize = 1;

pub const PLACE: usize = 2;

pub const PERSISTED: usize = 3;

pub const STABILISED: usize = 4;

pub const BUSY: usize = 5;

// History i.
pub fn history_at(words: &BookWords, i: usize) -> History
    requires { i < history_limit }
    ensures { result ≡ get_or (histories_in words.now) i no_history }
{
    let at = WIDTH * i;
    History {
        profile: words[at],
        version: Version(words[at + VERSION]),
        place: Place(words[at + PLACE]),
    }
}

// History i becomes h.
pub fn put_history(words: &mut BookWords, i: usize, h: History)
    requires { i < history_limit }
    ensures { PutHistory i h words.old words.new }
{
    let at = WIDTH * i;
    words[at] = h.profile;
    words[at + VERSION] = h.version.0;
    words[at + PLACE] = h.place.0;
}

// Number f of each history.
pub fn column_at(words: &BookWords, f: usize) -> [u64; HISTORIES]
    requires { f < width }
    ensures { result ≡ column_from f words.now }
{
    array::from_fn(|i| words[WIDTH * i + f])
}

// Number f of each of the first n histories becomes that of the column.
pub fn put_column(words: &mut BookWords, f: usize, column: [u64; HISTORIES], n: usize)
    requires { (f < width) × (n ≤ history_limit) }
    ensures { PutColumn f n column words.old words.new }
{
    for (i, x) in column[..n].iter().enumerate() {
        words[WIDTH * i + f] = *x;
    }
}

// The numbers of the first n histories become 0.
pub fn clear(words: &mut BookWords, n: usize)
    requires { n ≤ history_limit }
    ensures { Cleared n words.old words.new }
{
    words[..WIDTH * n].fill(0);
}

// The numbers of the first n histories become those of another book.
pub fn put_book(words: &mut BookWords, from: &BookWords, n: usize)
    requires { n ≤ history_limit }
    ensures { Copied n from.now words.old words.new }
{
    words[..WIDTH * n].copy_from_slice(&from[..WIDTH * n]);
}
