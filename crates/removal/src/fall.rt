// Removal by history and removal by transaction, which call each other.
ghost use Rattle.std.specs.Prelude.{◌≡◌, ◌<◌, ◌/◌, length, replicate};
ghost use Rattle.removal.specs.Chains.{count_of, Chained};
ghost use Rattle.removal.specs.Fall.{net, net_of, LinksFit, Placed, FellLine, FellPairs, LaterIf, line_in, IsLineOf, Lost, Marked};

use super::chains::{Chains, chain, first, further, mate};
use super::slots::NO_HISTORY;
use forms::LogNumber;
use forms::limits::UPDATES;

// The most did lines that a log of 65,536 bytes has: the shortest has 22.
pub const LINES: usize = 2978;

// A number for each line: not 0 if it is removed.
pub type Marks = [u8; LINES];

// Slots of a line: an update each.
pub const SLOTS: usize = UPDATES;

// The next slot with the history of slot p, if there is one: of a later line. A slot without an update has the history 16.
fn later(slots: &[u64], chains: &Chains, p: usize) -> Option<usize>
    requires { Chained slots.now 1 chains.now × (p < count_of slots.now) }
    ensures { LaterIf slots.now p result }
{
    if slots[2 * p + 1] < NO_HISTORY {
        further(slots, chains, 1, p)
    } else {
        None
    }
}

// The line of pair p, counted from 0.
fn line_of(words: &[u64], base: LogNumber, p: usize) -> usize
    requires { IsLineOf words.now base.0 p }
    ensures { result ≡ line_in base.0 words.now p }
{
    (words[2 * p] - base.0 - 1) as usize
}

// Through what lines fall with one another: the slots of a log by their histories, and the pairs of a report by their lines and by their
// transactions.
#[derive(Clone, Copy)]
struct Links<'a> {
    slots: &'a [u64],
    histories: &'a Chains,
    pairs: &'a [u64],
    lines: &'a Chains,
    transactions: &'a Chains,
    base: LogNumber,
}

// Removes line i: the next line in each of its histories falls with it, and so all later ones; and so do its transactions.
#[cycle(by_history_by_transaction)]
fn by_history(links: &Links, gone: &mut Marks, i: usize)
    requires fit { LinksFit links.now gone.old }
    requires i_in_bounds { i < length links.now.slots.now / 8 }
    ensures { FellLine (net_of links.now) i gone.old gone.new }
{
    if gone[i] == 0 {
        gone[i] = 1;
        for u in 0..SLOTS {
            if let Some(q) = later(links.slots, links.histories, SLOTS * i + u) {
                let line = line_of(links.slots, links.base, q);
                by_history(links, gone, line);
            }
        }
        by_transaction(links, gone, i);
    }
}

// Removes the next line of each transaction of line i, behind the last one the first again: with that falls the one after it, and so on
// round to line i. No index is counted: the chain tells the next pair.
#[cycle(by_history_by_transaction)]
fn by_transaction(links: &Links, gone: &mut Marks, i: usize)
    requires fit { LinksFit links.now gone.old }
    requires i_in_bounds { i < length links.now.slots.now / 8 }
    ensures { FellPairs (net_of links.now) i gone.old gone.new }
{
    let mut next = first(links.pairs, links.lines, 0, links.base.0 + 1 + i as u64);
    while let Some(p) = next {
        let q = mate(links.pairs, links.transactions, p);
        let line = line_of(links.pairs, links.base, q);
        by_history(links, gone, line);
        next = further(links.pairs, links.lines, 0, p);
    }
}

// No line is marked.
fn no_marks() -> Marks
    ensures { result ≡ replicate 2978 0 }
{
    [0; LINES]
}

// Marks the lines that fall with those lost.
pub fn mark(slots: &[u64], pairs: &[u64], lost: &[u64], base: LogNumber) -> Marks
    requires { Placed (net slots.now pairs.now base.0) × Lost slots.now base.0 lost.now }
    ensures { Marked (net slots.now pairs.now base.0) lost.now result }
{
    let histories = chain(slots, 1);
    let lines = chain(pairs, 0);
    let transactions = chain(pairs, 1);
    let links = Links {
        slots,
        histories: &histories,
        pairs,
        lines: &lines,
        transactions: &transactions,
        base,
    };
    let mut gone = no_marks();
    for k in lost {
        by_history(&links, &mut gone, (*k - base.0 - 1) as usize);
    }
    gone
}
