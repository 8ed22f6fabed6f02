// What C and other languages link of `fitting_module`: each export calls the function of its name, with its clauses. That there is one for
// each, with all that is lent one by one, is what include/fitting_module.h declares.
#![tactic(auto)]

mod adding;
mod calls;
mod lines;
mod plain_calls;
mod polls;
mod start;
mod trims;
mod version;
