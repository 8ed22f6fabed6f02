// The library that a controller is built on: a site that lives on from call to call in numbers and bytes that its owner lends. `fl_start`
// and `fl_restart` establish the invariant, whatever they answer, and require nothing; every other call on a state requires it and keeps
// it: C lends the parts of a state one by one (include/fitting_ledger.h), some for reading alone, so that each call asks that they are one
// (`ValidState`). `fl_upgrade` is lent a log alone.
#![tactic(auto)]

pub mod adding;
pub mod answer;
pub mod calls;
pub mod cards;
pub mod counters;
pub mod finds;
pub mod lines;
pub mod plain_calls;
pub mod polls;
pub mod start;
pub mod trims;
pub mod upgrade;
pub mod version;
