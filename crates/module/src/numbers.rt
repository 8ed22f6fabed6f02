// The numbers of the table's entries: slot j's part of them begins at place 64 · j. A slot that needs free numbers is given those of its
// neighbours.
ghost use Rattle.std.specs.Prelude.{◌≡◌, ◌+◌, ◌*◌, ◌<◌, ◌++◌, length, take, drop};
ghost use Rattle.module.specs.Parts.{part_of};
ghost use Rattle.module.specs.Gather.{MaySpare, spare_at, IsSpare, MayGive, Gives, MayGather, Gathered};

use super::Slot;

// The places of a slot's part.
pub const PART: usize = forms::limits::LIVE;

// A slot's part of the numbers.
pub fn part_of(numbers: &[u8], slot: usize) -> [u8; PART]
    requires { (slot < 4) × (length numbers.now ≡ 256) }
    ensures { result ≡ part_of slot 64 numbers.now }
{
    let mut part = [0u8; PART];
    part.copy_from_slice(&numbers[PART * slot..PART * (slot + 1)]);
    part
}

// A slot's part of the numbers becomes this.
pub fn put_part(numbers: &mut [u8], slot: usize, part: [u8; PART])
    requires { (slot < 4) × (length numbers.old ≡ 256) }
    ensures { numbers.new ≡ take (64 * slot) numbers.old ++ (part ++ drop (64 * slot + 64) numbers.old) }
{
    numbers[PART * slot..PART * (slot + 1)].copy_from_slice(&part);
}

// Whether slot j is a neighbour that holds a free number.
fn is_spare(slots: [Slot; 4], slot: usize, j: usize) -> bool
    requires { MaySpare slots slot × (j < 4) }
    ensures { result ≡ spare_at slots slot j }
{
    if j == slot {
        return false;
    }
    let table = slots[j].site.table;
    table.finished + table.queue < slots[j].held
}

// A neighbour that holds a free number.
fn spare(slots: [Slot; 4], slot: usize) -> usize
    requires { MaySpare slots slot }
    ensures { IsSpare slots slot result }
{
    for j in 0..3 {
        if is_spare(slots, slot, j) {
            return j;
        }
    }
    3
}

// The last number that slot `from` holds goes behind those that slot `to` holds.
fn give(numbers: &mut [u8], mut slots: [Slot; 4], to: usize, from: usize) -> [Slot; 4]
    requires { MayGive slots numbers.old to from }
    ensures { Gives slots numbers.old to from result numbers.new }
{
    slots[from].held -= 1;
    numbers[PART * to + slots[to].held] = numbers[PART * from + slots[from].held];
    slots[to].held += 1;
    slots
}

// A slot is given free numbers of its neighbours until it holds n: the test of the loop says so, where a `for` would count the difference.
pub fn gather(numbers: &mut [u8], mut slots: [Slot; 4], slot: usize, n: usize) -> [Slot; 4]
    requires { MayGather slots numbers.old slot n }
    ensures { Gathered slots numbers.old slot n result numbers.new }
{
    while slots[slot].held < n {
        let from = spare(slots, slot);
        slots = give(numbers, slots, slot, from);
    }
    slots
}
