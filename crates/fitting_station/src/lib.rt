// The library that a station is built on: a keeper, and the records beside its lines, that live on from call to call in numbers and bytes
// that their owner lends. The calls that start or resume establish the invariant, whatever they answer, and require nothing; every other
// call requires it and keeps it. The report of what falls with lost lines is lent a log alone, and requires nothing.
#![tactic(auto)]

pub mod keepers;
pub mod record_calls;
pub mod removals;
pub mod version;
