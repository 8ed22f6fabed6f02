// What a library's calls take and answer in words, for a site alone and for one of a module: the updates of an add, the answer of a reply,
// the number of a poll and of a copy of the log. The C interface takes and gives numbers alone (`reply_number`, `poll_number`, `put_said`,
// `bit`). Only `put_reply` requires something: that the reply can be printed and has room.
#![tactic(auto)]

ghost use Rattle.std.specs.Prelude.{◌≡◌, cond};

pub mod adding;
pub mod answer;
pub mod polls;
pub mod said;
pub mod text;

// 1: "unreadable line".
pub const UNREADABLE: u64 = 1;

// 3: "a history that is not there".
pub const NO_SUCH_HISTORY: u64 = 3;

// 14: "before site", and a slot of a module that is not open or not there.
pub const OUT_OF_TURN: u64 = 14;

// 1 for yes and 0 for no.
pub fn bit(b: bool) -> u64
    ensures { result ≡ cond b 1 0 }
{
    u64::from(b)
}
