// What a call of the module hands back, put away.
ghost use Rattle.std.specs.Prelude.{◌≡◌, length};
ghost use Rattle.fitting_module.specs.Words.{words};
ghost use Rattle.fitting_module.specs.Calls.{PutsCall};

use super::words::{SlotWords, put_module};
use call_words::answer::{Answer, put_answer};
use module::ModuleResult;

// What a call of the module handed back: its counters, and, where the call was accepted, the answer.
pub(crate) fn put_call(
    first: &mut SlotWords,
    second: &mut SlotWords,
    third: &mut SlotWords,
    fourth: &mut SlotWords,
    answer: &mut Answer,
    r: ModuleResult,
) -> u64
    requires { length r.after.slots ≡ 4 }
    ensures { PutsCall r result (words first.new second.new third.new fourth.new) answer.old answer.new }
{
    put_module(first, second, third, fourth, r.after);
    put_answer(answer, r.reply)
}
