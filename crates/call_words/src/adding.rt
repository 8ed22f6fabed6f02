// The updates of an add in numbers: four for each.
ghost use Rattle.std.specs.Prelude.{◌≡◌};
ghost use Rattle.call_words.specs.Adding.{asked_of, held_in, rules_known};

use forms::limits::UPDATES;
use forms::{Asked, AskedHeld, Version};
use table::rows::rule_named;

// Room for as many updates as an operation may have: of each its rule (0 inc, 1 set, 2 not, 3 unk), history, version and operand.
pub type Updates = [u64; UPDATES * 4];

// An update of its four numbers.
fn asked_of(rule: u64, history: u64, version: u64, operand: u64) -> Asked
    ensures { result ≡ asked_of rule history version operand }
{
    Asked {
        rule: rule_named(rule),
        history,
        version: Version(version),
        operand,
    }
}

// The updates that numbers are.
#[tactic(auto, unfolding(crate::specs::Adding::held_in))]
pub fn held_in(words: &Updates, count: usize) -> AskedHeld
    ensures { result ≡ held_in count words.now }
{
    let a = asked_of(words[0], words[1], words[2], words[3]);
    let b = asked_of(words[4], words[5], words[6], words[7]);
    let c = asked_of(words[8], words[9], words[10], words[11]);
    let d = asked_of(words[12], words[13], words[14], words[15]);
    AskedHeld {
        count,
        first: [a, b, c, d],
    }
}

// Whether the four rules' numbers are those of rules.
#[tactic(auto, unfolding(crate::specs::Adding::rules_known))]
pub fn rules_known(words: &Updates) -> bool
    ensures { result ≡ rules_known words.now }
{
    words[0] <= 3 && words[4] <= 3 && words[8] <= 3 && words[12] <= 3
}
