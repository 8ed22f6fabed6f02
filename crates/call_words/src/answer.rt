// What a call without text replies: numbers.
ghost use Rattle.std.specs.Prelude.{◌≡◌};
ghost use Rattle.call_words.specs.Answers.{form_number, answer_words, PutsAnswer};

use forms::{ReplyForm, ReplyLine};

// How many numbers the two lists of a reply have, then its single numbers in their printed order, and 0 behind them. Behind the log number
// of a finish: how many ids of its second list, the first ones, were overtaken; the others are ready.
pub const ANSWER_WORDS: usize = 8;

pub type Answer = [u64; ANSWER_WORDS];

// 0 for a reply that accepts, and a refusal's number.
#[tactic(auto, unfolding(crate::specs::Answers::form_number))]
pub fn reply_number(form: ReplyForm) -> u64
    ensures { result ≡ form_number form }
{
    match form {
        ReplyForm::Refused(q) => u64::from(q),
        _ => 0,
    }
}

// The answer of a reply.
#[tactic(auto, unfolding(crate::specs::Answers::single_words))]
fn answer_of(r: ReplyLine) -> Answer
    ensures { result ≡ answer_words r }
{
    let n = r.first as u64;
    let m = r.second as u64;
    match r.form {
        ReplyForm::Finished { number, overtaken } => [n, m, number.0, overtaken as u64, 0, 0, 0, 0],
        ReplyForm::Shows(s) => [
            n,
            m,
            s.history,
            s.version.0,
            s.persistent.0,
            s.stable.0,
            s.place.0,
            s.profile,
        ],
        ReplyForm::Restarted { lines, used } => [n, m, lines, used, 0, 0, 0, 0],
        ReplyForm::Redone { ran, examined } => [n, m, ran, examined, 0, 0, 0, 0],
        _ => [n, m, 0, 0, 0, 0, 0, 0],
    }
}

// 0, and the answer is the reply's; or the number of the refusal.
pub fn put_answer(answer: &mut Answer, r: ReplyLine) -> u64
    ensures { PutsAnswer r result answer.old answer.new }
{
    let n = reply_number(r.form);
    if n == 0 {
        *answer = answer_of(r);
    }
    n
}
