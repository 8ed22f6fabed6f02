// What the checks of an add and of a redo read of a site, and those that both have.
ghost use Rattle.std.specs.Prelude.{◌≡◌, ℕ, List};
ghost use Rattle.history.specs.Asking.{verdict_of};
ghost use Rattle.table.specs.Tables.{Owns};
ghost use Rattle.site.specs.Model.{received, Valid};
ghost use Rattle.site.specs.CheckInputs.{conflict_refusal, SeesAll};

use super::Site;
use forms::Refusal;
use history::Verdict;
use table::search::has_id;

// What the checks of an operation or of a did line read of a site, beside its histories.
#[derive(Clone, Copy)]
pub struct CheckInputs {
    pub restoring: bool,
    // how many histories there are
    pub count: usize,
    // whether the id stands in the queue, and among the done operations that have not left the table
    pub pending: bool,
    pub done: bool,
    // whether as many operations are live as may be
    pub full: bool,
}

impl Site {
    // What the checks read of a site, for the operation or the did line with this id.
    pub(crate) fn inputs(self, order: &[u8], rows: &[u64], id: u64) -> CheckInputs
        requires { Owns self.table order.now rows.now }
        ensures count { result.count ≡ self.count }
        ensures seen { (log book : List ℕ) → Valid self (received log rows.now order.now book) →
            SeesAll result self (received log rows.now order.now book) id }
    {
        let finished = self.table.finished;
        let live = finished + self.table.queue;
        CheckInputs {
            restoring: self.restoring,
            count: self.count,
            pending: has_id(order, rows, finished, live, id),
            done: has_id(order, rows, 0, finished, id),
            full: order.len() <= live,
        }
    }
}

// The checks 7 to 9, 17, 10 and 12, by what each has found: several may have found something, so that they are no kinds of one thing.
pub fn conflict(
    pending: bool,
    done: bool,
    overtaken: bool,
    highest: bool,
    full: bool,
    short: bool,
) -> Verdict
    ensures { result ≡ verdict_of (conflict_refusal pending done overtaken highest full short) }
{
    if pending {
        return Err(Refusal::IdPending);
    }
    if done {
        return Err(Refusal::AlreadyDone);
    }
    if overtaken {
        return Err(Refusal::ReadOvertaken);
    }
    if highest {
        return Err(Refusal::HighestVersion);
    }
    if full {
        return Err(Refusal::TableFull);
    }
    if short {
        return Err(Refusal::NoRoom);
    }
    Ok(())
}
