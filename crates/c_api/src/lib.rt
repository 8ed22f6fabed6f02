// What programs in other languages call, on numbers and byte slices alone: so answers and refusals become numbers (`replied_number`,
// `answer_number`, `result_number`, `removals_number`). Nothing is required of what they lend.
#![tactic(auto)]

pub mod cards;
pub mod finds;
pub mod keepers;
mod numbers;
pub mod play;
pub mod polls;
pub mod record_calls;
pub mod removals;
pub mod restart;
pub mod rounds;
pub mod slot_rounds;
mod taken;
pub mod trims;
pub mod upgrade;
