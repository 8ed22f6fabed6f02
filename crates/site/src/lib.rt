// One site: its counters, and, in what is lent to it, its histories, its table of live operations and its log.
#![tactic(auto)]

ghost use Rattle.std.specs.Prelude.{◌≡◌, List, [], ℕ};
ghost use Rattle.forms.specs.Forms.{Refused};
ghost use Rattle.forms.specs.Held.{replied, outcome_with};
ghost use Rattle.site.specs.Model.{Says, Lent, RefusedAs};

use forms::{LogNumber, Refusal, ReplyForm, ReplyLine};
use table::Table;

pub mod add;
pub mod bounds;
pub mod end;
pub mod entry_of;
pub mod finish;
pub mod open;
pub mod persistent;
pub mod poll;
pub mod redo;
pub mod restart;
mod seen;
pub mod show;
pub mod stable;
pub mod withdraw;

// A site by value. What the caller lends to each call: a buffer whose first `used` bytes are its log, the rows of its table, the order of
// its entries, the numbers of its histories, and an array for the lists of the reply, one behind the other. These are arguments of their
// own, and that the site is valid with them (`Valid`) is asked of each call: C lends each array by itself, and which of them a call may
// write is a promise of its signature, as `withdraw` takes the log as `&[u8]`.
#[derive(Clone, Copy)]
pub struct Site {
    // how many histories there are
    pub count: usize,
    // bytes of the log buffer in use
    pub used: usize,
    // of these, the bytes of the site line and of the base line, with their ends
    pub head: usize,
    // how many operations the base line stands for, and how many are done, persistent, stable, and have left the table: with them
    pub base: LogNumber,
    pub done: LogNumber,
    pub persistent: LogNumber,
    pub stable: LogNumber,
    pub left: LogNumber,
    pub restoring: bool,
    // bytes that the waiting redo lines will take in the log
    pub reserved: usize,
    // how many operations are done and have not left the table, and how many are not done (while restoring: wait)
    pub table: Table,
}

// What a call hands back: the site after it, and the reply.
#[derive(Clone, Copy)]
pub struct CallResult {
    pub site: Site,
    pub reply: ReplyLine,
}

impl Site {
    // "A site has 1 to 16 histories"
    pub const HISTORIES: usize = forms::limits::HISTORIES;
    // "At most 64 operations are live"
    pub const LIVE: usize = forms::limits::LIVE;
    // "1 to 4 updates"
    pub const UPDATES: usize = forms::limits::UPDATES;
    // "a log buffer at most 65,536"
    pub const LOG_BYTES: usize = forms::limits::LOG_BYTES;
    // "above 1,024 bytes without its end"
    pub const LINE_BYTES: usize = forms::limits::LINE_BYTES;

    // "A refusal returns its number only; site, log .. and all other lent buffers do not change." Session and module have such a function
    // too: each gives its own result, whose fields the contracts name, in as few lines.
    fn refuse(self, q: Refusal) -> CallResult
        ensures { (old : Lent) → RefusedAs self old q result old }
    {
        CallResult {
            site: self,
            reply: refusal(q),
        }
    }
}

// A reply without numbers behind those of its form.
fn bare(form: ReplyForm) -> ReplyLine
    ensures line { result ≡ record { form = form; first = 0; second = 0 } }
    ensures says { (ns : List ℕ) → Says (replied result ns) (outcome_with form [] []) }
{
    ReplyLine {
        form,
        first: 0,
        second: 0,
    }
}

// The reply of a refusal.
pub fn refusal(q: Refusal) -> ReplyLine
    ensures { (ns : List ℕ) → Says (replied result ns) (Refused q) }
{
    bare(ReplyForm::Refused(q))
}
