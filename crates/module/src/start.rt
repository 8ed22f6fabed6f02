// A module as it is made: no slot is opened, and no entry taken.
ghost use Rattle.std.specs.Prelude.{◌≡◌, length, take};
ghost use Rattle.forms.specs.Lists.{below};
ghost use Rattle.module.specs.Start.{Made};

use super::{Module, Slot};
use site::Site;

// The numbers 0 .. 127, in the parts of slots 0 and 1.
fn number_entries(numbers: &mut [u8])
    requires { length numbers.old ≡ 256 }
    ensures { (length numbers.new ≡ 256) × (take 128 numbers.new ≡ below 128) }
{
    for i in 0..Module::ENTRIES {
        numbers[i] = i as u8;
    }
}

impl Module {
    // "Each site, opened or not yet, is promised 16". The numbers of all entries are written; the rows may have any words.
    pub fn new(numbers: &mut [u8; 256]) -> Module
        ensures { Made result numbers.new }
    {
        number_entries(numbers);
        let part = Slot {
            site: Site::blank(),
            opened: false,
            promise: Module::PROMISE,
            held: 64,
        };
        let none = Slot { held: 0, ..part };
        Module {
            slots: [part, part, none, none],
        }
    }
}
