// What an open site hands back, put away.
ghost use Rattle.fitting_ledger.specs.Calls.{PutsCall};

use super::counters::{Counters, put_site};
use call_words::answer::{Answer, put_answer};
use site::CallResult;

// What an open site handed back: its counters, and, where the call was accepted, the answer.
pub(crate) fn put_call(counters: &mut Counters, answer: &mut Answer, r: CallResult) -> u64
    ensures { PutsCall r result counters.new answer.old answer.new }
{
    put_site(counters, r.site);
    put_answer(answer, r.reply)
}
