// Poll: whether a history is dry, by the number that is kept for it.
ghost use Rattle.site.specs.Polls.{ValidWith, Polls};

use super::Site;
use history::book::{BUSY, BookWords, WIDTH};

// What a poll says of a history. That there is none is a case of the answer and no Err: a poll meets this refusal alone, and a Result would
// say that it may meet any.
#[derive(Clone, Copy)]
pub enum PollAnswer {
    Dry,
    Busy,
    NoSuchHistory,
}

impl Site {
    // "The poll of a history reads only this number and says dry exactly when a walk over the entries would."
    pub fn poll(self, book: &BookWords, h: u64) -> PollAnswer
        requires { ValidWith self book.now }
        ensures { Polls self book.now h result }
    {
        if self.count as u64 <= h {
            return PollAnswer::NoSuchHistory;
        }
        if book[WIDTH * h as usize + BUSY] == 0 {
            PollAnswer::Dry
        } else {
            PollAnswer::Busy
        }
    }
}
