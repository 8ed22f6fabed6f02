// A module's counters in words: from call to call they stand in arrays that are lent, one for each slot.
ghost use Rattle.std.specs.Prelude.{◌≡◌, length};
ghost use Rattle.fitting_module.specs.Words.{words, slot_at, words_of, module_at, words_in};

use call_words::bit;
use forms::LogNumber;
use module::{Module, Slot};
use site::Site;
use table::Table;

// How many words a slot has: whether its site is open; of the site histories, bytes of the log in use, and of these those of its head;
// operations that its base line stands for, and those done, persistent, stable and left; whether it is restoring; the bytes that its
// waiting lines will take; operations done and still in the table, and not done (or waiting). Then how many entries the slot is promised,
// and how many entry numbers it holds.
pub const SLOT_WORDS: usize = 15;

// The counters of one slot. A call takes four of them, and no module, as include/fitting_module.h lends them.
pub type SlotWords = [u64; SLOT_WORDS];

// The slot whose counters these are.
fn slot_at(words: &SlotWords) -> Slot
    ensures { result ≡ slot_at words.now }
{
    Slot {
        site: Site {
            count: words[1] as usize,
            used: words[2] as usize,
            head: words[3] as usize,
            base: LogNumber(words[4]),
            done: LogNumber(words[5]),
            persistent: LogNumber(words[6]),
            stable: LogNumber(words[7]),
            left: LogNumber(words[8]),
            restoring: words[9] == 1,
            reserved: words[10] as usize,
            table: Table {
                finished: words[11] as usize,
                queue: words[12] as usize,
            },
        },
        opened: words[0] == 1,
        promise: words[13] as usize,
        held: words[14] as usize,
    }
}

// The counters of a slot.
fn words_of(s: Slot) -> SlotWords
    ensures { result ≡ words_of s }
{
    let site = s.site;
    [
        bit(s.opened),
        site.count as u64,
        site.used as u64,
        site.head as u64,
        site.base.0,
        site.done.0,
        site.persistent.0,
        site.stable.0,
        site.left.0,
        bit(site.restoring),
        site.reserved as u64,
        site.table.finished as u64,
        site.table.queue as u64,
        s.promise as u64,
        s.held as u64,
    ]
}

// The module whose counters these are.
pub(crate) fn module_at(
    first: &SlotWords,
    second: &SlotWords,
    third: &SlotWords,
    fourth: &SlotWords,
) -> Module
    ensures { result ≡ module_at (words first.now second.now third.now fourth.now) }
{
    Module {
        slots: [
            slot_at(first),
            slot_at(second),
            slot_at(third),
            slot_at(fourth),
        ],
    }
}

// The counters become those of a module.
pub(crate) fn put_module(
    first: &mut SlotWords,
    second: &mut SlotWords,
    third: &mut SlotWords,
    fourth: &mut SlotWords,
    m: Module,
)
    requires { length m.slots ≡ 4 }
    ensures { words first.new second.new third.new fourth.new ≡ words_in m.slots }
{
    let [a, b, c, d] = m.slots;
    *first = words_of(a);
    *second = words_of(b);
    *third = words_of(c);
    *fourth = words_of(d);
}
