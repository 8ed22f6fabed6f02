// End: restoring is over.
ghost use Rattle.rules.specs.Calls.{Call};
ghost use Rattle.site.specs.Model.{received, Valid, Steps, lent};

use super::{CallResult, Site};
use forms::{Refusal, ReplyForm, ReplyLine, ReplyNumbers};
use history::book::BookWords;
use table::Table;
use table::search::ids;

impl Site {
    // "Ending restoring drops and names those still waiting, in order of delivery."
    pub fn end(
        self,
        log: &[u8],
        rows: &[u64],
        order: &[u8],
        book: &BookWords,
        lists: &mut ReplyNumbers,
    ) -> CallResult
        requires { Valid self (received log.now rows.now order.now book.now) }
        ensures { Steps self (lent log.now rows.now order.now book.now lists.old) Call.End result
            (lent log.now rows.now order.now book.now lists.new) }
    {
        if !self.restoring {
            return self.refuse(Refusal::OutOfTurn);
        }
        let finished = self.table.finished;
        let named = ids(order, rows, finished, finished + self.table.queue, lists, 0);
        CallResult {
            site: Site {
                table: Table { finished, queue: 0 },
                restoring: false,
                reserved: 0,
                ..self
            },
            reply: ReplyLine {
                form: ReplyForm::Ended,
                first: named,
                second: 0,
            },
        }
    }
}
