// Rows in words: an entry has one row of the table from its add or redo until it leaves.
ghost use Rattle.std.specs.Prelude.{◌≡◌, ◌+◌, ◌*◌, ◌≤◌, ◌<◌, length, get_or};
ghost use Rattle.forms.specs.Limits.{update_limit};
ghost use Rattle.history.specs.Entries.{no_item};
ghost use Rattle.history.specs.Words.{within};
ghost use Rattle.table.specs.Rows.{rule_number, rule_named, item_at, PutItem, begun, row_at, mark_at, HasRow, PutRow, PutMark};

use forms::limits::LIVE;
use forms::{LogNumber, Place, Rule, Version};
use history::{Entry, Item};

// How many words a row has: id, whether it is in progress, count, for each of four updates rule, history, version, place, operand, and
// behind them the stable mark when its did line was written.
pub const ROW: usize = 24;

// The rows of a table of one site. They are numbers, since C lends the array; and that a row is one of these (`HasRow`) is a fact about an
// entry number and the words together.
pub type Rows = [u64; LIVE * ROW];

// The number of a rule, as it stands in a row: C lends its words, which are numbers.
fn rule_number(rule: Rule) -> u64
    ensures { result ≡ rule_number rule }
{
    match rule {
        Rule::Inc => 0,
        Rule::Set => 1,
        Rule::Not => 2,
        Rule::Unk => 3,
    }
}

// The rule of a number: that of a row's words, and of the words that C lends for an add.
pub fn rule_named(n: u64) -> Rule
    ensures { result ≡ rule_named n }
{
    match n {
        0 => Rule::Inc,
        1 => Rule::Set,
        2 => Rule::Not,
        _ => Rule::Unk,
    }
}

// A number below 256, and 0 for any other.
fn small_byte(n: u64) -> u8
    ensures { result ≡ within 256 n }
{
    u8::try_from(n).unwrap_or(0)
}

// The item whose words begin at `at`.
fn item_at(words: &[u64], at: usize) -> Item
    requires { at + 5 ≤ length words.now }
    ensures { result ≡ item_at words.now at }
{
    Item {
        rule: rule_named(words[at]),
        history: small_byte(words[at + 1]),
        version: Version(words[at + 2]),
        place: Place(words[at + 3]),
        operand: words[at + 4],
    }
}

// The row of entry e.
pub fn row_at(words: &[u64], e: usize) -> Entry
    requires { HasRow words.now e }
    ensures { result ≡ row_at words.now e }
{
    let at = e * ROW;
    Entry {
        id: words[at],
        running: words[at + 1] == 1,
        count: words[at + 2] as usize,
        items: [
            item_at(words, at + 3),
            item_at(words, at + 8),
            item_at(words, at + 13),
            item_at(words, at + 18),
        ],
    }
}

// The id in the row of entry e.
pub fn id_at(words: &[u64], e: usize) -> u64
    requires { HasRow words.now e }
    ensures { result ≡ (row_at words.now e).id }
{
    words[e * ROW]
}

// Whether the row of entry e is in progress.
pub fn runs_at(words: &[u64], e: usize) -> bool
    requires { HasRow words.now e }
    ensures { result ≡ (row_at words.now e).running }
{
    words[e * ROW + 1] == 1
}

// How many items the row of entry e has.
pub fn count_at(words: &[u64], e: usize) -> usize
    requires { HasRow words.now e }
    ensures { result ≡ (row_at words.now e).count }
{
    words[e * ROW + 2] as usize
}

// Item j of the row of entry e.
pub fn item_in(words: &[u64], e: usize, j: usize) -> Item
    requires { HasRow words.now e × (j < update_limit) }
    ensures { result ≡ get_or (row_at words.now e).items j no_item }
{
    item_at(words, e * ROW + 3 + j * 5)
}

// Writes an item to the words that begin at `at`.
fn put_item(words: &mut [u64], at: usize, x: Item)
    requires { at + 5 ≤ length words.old }
    ensures { PutItem at x words.old words.new }
{
    words[at] = rule_number(x.rule);
    words[at + 1] = x.history as u64;
    words[at + 2] = x.version.0;
    words[at + 3] = x.place.0;
    words[at + 4] = x.operand;
}

// Writes the row of entry e.
pub fn put_row(words: &mut [u64], e: usize, r: Entry)
    requires { HasRow words.old e }
    ensures { PutRow e r words.old words.new }
{
    let at = e * ROW;
    words[at] = r.id;
    words[at + 1] = r.running as u64;
    words[at + 2] = r.count as u64;
    put_item(words, at + 3, r.items[0]);
    put_item(words, at + 8, r.items[1]);
    put_item(words, at + 13, r.items[2]);
    put_item(words, at + 18, r.items[3]);
}

// The operation in the row of entry e is in progress from now on.
pub fn start_row(words: &mut [u64], e: usize)
    requires { HasRow words.old e }
    ensures { PutRow e (begun (row_at words.old e)) words.old words.new }
{
    words[e * ROW + 1] = 1;
}

// The stable mark noted in the row of entry e.
pub fn mark_at(words: &[u64], e: usize) -> LogNumber
    requires { HasRow words.now e }
    ensures { result.0 ≡ mark_at words.now e }
{
    LogNumber(words[e * ROW + 23])
}

// Notes the stable mark m in the row of entry e.
pub fn put_mark(words: &mut [u64], e: usize, m: LogNumber)
    requires { HasRow words.old e }
    ensures { PutMark e m.0 words.old words.new }
{
    words[e * ROW + 23] = m.0;
}
