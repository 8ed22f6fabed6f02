// The library for a compact module: up to four sites that share one table, and live on from call to call in numbers and bytes that their
// owner lends. `fm_start` establishes the invariant and requires nothing; every other call requires it and keeps it: C lends the parts of a
// state one by one (include/fitting_module.h), the counters of the four slots too, some for reading alone, so that each call asks that they
// are one (`ValidState`).
#![tactic(auto)]

pub mod adding;
pub mod answer;
pub mod calls;
pub mod lines;
pub mod plain_calls;
pub mod polls;
pub mod start;
pub mod trims;
pub mod version;
pub mod words;
