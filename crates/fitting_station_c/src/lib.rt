// What C and other languages link of `fitting_station`: each export calls the function of its name, with its clauses. That there is one for
// each, with all that is lent one by one, is what include/fitting_ledger.h declares.
#![tactic(auto)]

mod keepers;
mod record_calls;
mod removals;
mod version;
