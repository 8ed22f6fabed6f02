// What a poll returns.
ghost use Rattle.std.specs.Prelude.{◌≡◌};
ghost use Rattle.site.specs.Polls.{polled_of};
ghost use Rattle.session.specs.Polls.{polled_number};

use super::NO_SUCH_HISTORY;
use site::poll::PollAnswer;

// A history that is not dry, and one that is.
pub const BUSY: u64 = 1000;

pub const DRY: u64 = 1001;

// The number for what a poll says.
#[tactic(auto, unfolding(site::specs::Polls::polled_of, session::specs::Polls::polled_number, forms::specs::Refusals::number_of))]
pub fn poll_number(p: PollAnswer) -> u64
    ensures { result ≡ polled_number (polled_of p) }
{
    match p {
        PollAnswer::Dry => DRY,
        PollAnswer::Busy => BUSY,
        PollAnswer::NoSuchHistory => NO_SUCH_HISTORY,
    }
}
