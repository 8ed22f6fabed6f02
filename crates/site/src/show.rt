// Show: what a history is now.
ghost use Rattle.std.specs.Prelude.{ℕ, List};
ghost use Rattle.rules.specs.Calls.{Call};
ghost use Rattle.site.specs.Model.{received, Valid, Steps, lent};

use super::{CallResult, Site, bare};
use forms::{Refusal, ReplyForm, Shown, Version};
use history::book::{BookWords, PERSISTED, STABILISED, WIDTH, history_at};

impl Site {
    // "Show: history, version, persistent, stable, place, profile."
    pub fn show(
        self,
        log: &[u8],
        rows: &[u64],
        order: &[u8],
        book: &BookWords,
        h: u64,
    ) -> CallResult
        requires { Valid self (received log.now rows.now order.now book.now) }
        ensures { (ns : List ℕ) →
            Steps self (lent log.now rows.now order.now book.now ns) (Call.Show h) result (lent log.now rows.now order.now book.now ns) }
    {
        if self.count as u64 <= h {
            return self.refuse(Refusal::NoSuchHistory);
        }
        let i = h as usize;
        let now = history_at(book, i);
        CallResult {
            site: self,
            reply: bare(ReplyForm::Shows(Shown {
                history: h,
                version: now.version,
                persistent: Version(book[WIDTH * i + PERSISTED]),
                stable: Version(book[WIDTH * i + STABILISED]),
                place: now.place,
                profile: now.profile,
            })),
        }
    }
}
