// What C and other languages link of `c_api`: each export calls the function of its name, with its clauses. That there is one for each,
// with all that is lent one by one, is what callers in other languages link by name.
#![tactic(auto)]

mod cards;
mod finds;
mod keepers;
mod play;
mod polls;
mod record_calls;
mod removals;
mod restart;
mod rounds;
mod slot_rounds;
mod trims;
mod upgrade;
