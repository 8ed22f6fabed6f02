// Writing lines where there is room. Their printed forms are in specs/Forms.antt.
ghost use Rattle.std.specs.Prelude.{◌+◌, ◌≤◌, ◌<◌, [], ◌∷◌, length};
ghost use Rattle.forms.specs.Decimal.{digits, two_digits};
ghost use Rattle.forms.specs.Forms.{done_rule_text, field_text, numbers_text};
ghost use Rattle.forms.specs.Forms.{two_text, answer_text, outcome_text, Persisted};
ghost use Rattle.forms.specs.Held.{outcome_with};
ghost use Rattle.forms.specs.Write.{Wrote, listed_text, pair_text, parts_text, finished_text};

use super::lengths::shown_numbers;
use super::piece::write_all;
use super::writer::{refusal_number, write_word};
use super::{DoneRule, ReplyForm, Shown};

// Writes two digits at a position, and returns the position behind them.
fn write_two_digits(buf: &mut [u8], at: usize, x: u64) -> usize
    requires { (x < 100) × (at + 2 ≤ length buf.old) }
    ensures { Wrote buf.old at (two_digits x) result buf.new }
{
    buf[at] = b'0' + (x / 10) as u8;
    buf[at + 1] = b'0' + (x % 10) as u8;
    at + 2
}

// Writes a number below 100 at a position, and returns the position behind it.
fn write_small(buf: &mut [u8], at: usize, x: u64) -> usize
    requires { (x < 100) × (at + length (digits x) ≤ length buf.old) }
    ensures { Wrote buf.old at (digits x) result buf.new }
{
    if x < 10 {
        buf[at] = b'0' + x as u8;
        return at + 1;
    }
    write_two_digits(buf, at, x)
}

// Writes a number in decimal at a position, and returns the position behind it: two digits with each step.
pub(crate) fn write_number(buf: &mut [u8], at: usize, x: u64) -> usize
    requires { at + length (digits x) ≤ length buf.old }
    ensures { Wrote buf.old at (digits x) result buf.new }
{
    if x < 100 {
        return write_small(buf, at, x);
    }
    if x < 10000 {
        let front = write_small(buf, at, x / 100);
        return write_two_digits(buf, front, x % 100);
    }
    let next = write_number(buf, at, x / 100);
    write_two_digits(buf, next, x % 100)
}

// Writes a space and a number.
#[tactic(auto, unfolding(crate::specs::Forms::field_text))]
pub(crate) fn write_field(buf: &mut [u8], at: usize, x: u64) -> usize
    requires { at + length (field_text x) ≤ length buf.old }
    ensures { Wrote buf.old at (field_text x) result buf.new }
{
    let a = write_word(buf, at, b" ");
    write_number(buf, a, x)
}

// Writes an opening bracket and the word of a rule.
pub(crate) fn write_rule(buf: &mut [u8], at: usize, r: DoneRule) -> usize
    requires { at + length (done_rule_text r) ≤ length buf.old }
    ensures { Wrote buf.old at (done_rule_text r) result buf.new }
{
    match r {
        DoneRule::DidInc => write_word(buf, at, b"(inc"),
        DoneRule::DidSet => write_word(buf, at, b"(set"),
        DoneRule::DidNot => write_word(buf, at, b"(not"),
    }
}

// Writes a bracketed list of numbers behind its word.
#[tactic(auto, unfolding(crate::specs::Forms::numbers_text))]
fn write_numbers(buf: &mut [u8], at: usize, w: &[u8], ns: &[u64]) -> usize
    requires { at + length (numbers_text w.now ns.now) ≤ length buf.old }
    ensures { Wrote buf.old at (numbers_text w.now ns.now) result buf.new }
{
    let a = write_word(buf, at, w);
    let b = write_all(buf, a, ns);
    write_word(buf, b, b")")
}

// Writes a bracketed number behind its word.
pub(crate) fn write_one(buf: &mut [u8], at: usize, w: &[u8], n: u64) -> usize
    requires { at + length (numbers_text w.now (n ∷ [])) ≤ length buf.old }
    ensures { Wrote buf.old at (numbers_text w.now (n ∷ [])) result buf.new }
{
    write_numbers(buf, at, w, &[n])
}

// Writes an accepted reply that is one list of numbers.
fn write_listed(buf: &mut [u8], at: usize, w: &[u8], ns: &[u64]) -> usize
    requires { at + length (listed_text w.now ns.now) ≤ length buf.old }
    ensures { Wrote buf.old at (listed_text w.now ns.now) result buf.new }
{
    let a = write_word(buf, at, b"(ok ");
    let b = write_numbers(buf, a, w, ns);
    write_word(buf, b, b")")
}

// Writes two lists of numbers, and the bracket that closes the reply.
#[tactic(auto, unfolding(crate::specs::Write::pair_text))]
fn write_pair(buf: &mut [u8], at: usize, w: &[u8], xs: &[u64], v: &[u8], ys: &[u64]) -> usize
    requires { at + length (pair_text w.now xs.now v.now ys.now) ≤ length buf.old }
    ensures { Wrote buf.old at (pair_text w.now xs.now v.now ys.now) result
        buf.new }
{
    let a = write_numbers(buf, at, w, xs);
    let b = write_numbers(buf, a, v, ys);
    write_word(buf, b, b")")
}

// Writes a list in two parts, the ids behind the first k as made ready and the first k as overtaken, and the bracket that closes the
// reply.
fn write_parts(buf: &mut [u8], at: usize, k: usize, ids: &[u64]) -> usize
    requires { at + length (parts_text k ids.now) ≤ length buf.old }
    ensures { Wrote buf.old at (parts_text k ids.now) result buf.new }
{
    let (overtaken, ready) = ids.split_at(k.min(ids.len()));
    write_pair(buf, at, b"(ready", ready, b"(overtaken", overtaken)
}

// Writes what finish replies.
#[tactic(auto, unfolding(crate::specs::Forms::answer_text))]
fn write_finished(buf: &mut [u8], at: usize, n: u64, xs: &[u64], k: usize, ys: &[u64]) -> usize
    requires { at + length (finished_text n xs.now k ys.now) ≤ length buf.old }
    ensures { Wrote buf.old at (finished_text n xs.now k ys.now) result buf.new }
{
    let a = write_word(buf, at, b"(ok");
    let b = write_field(buf, a, n);
    let c = write_word(buf, b, b" ");
    let d = write_numbers(buf, c, b"(values", xs);
    write_parts(buf, d, k, ys)
}

// Writes what persistent replies.
#[tactic(auto, unfolding(crate::specs::Forms::answer_text))]
fn write_persisted(buf: &mut [u8], at: usize, xs: &[u64], ys: &[u64]) -> usize
    requires { at + length (answer_text (Persisted xs.now ys.now)) ≤ length buf.old }
    ensures { Wrote buf.old at (answer_text (Persisted xs.now ys.now)) result buf.new }
{
    let a = write_word(buf, at, b"(ok ");
    write_pair(buf, a, b"(histories", xs, b"(dry", ys)
}

// Writes what show replies.
#[tactic(auto, unfolding(crate::specs::Forms::answer_text, crate::specs::Forms::outcome_text, crate::specs::Held::outcome_with))]
fn write_shown(buf: &mut [u8], at: usize, s: Shown) -> usize
    requires { at + length (outcome_text (outcome_with (ReplyForm.Shows s) [] [])) ≤ length buf.old }
    ensures { Wrote buf.old at (outcome_text (outcome_with (ReplyForm.Shows s) [] [])) result buf.new }
{
    write_numbers(buf, at, b"(history", &shown_numbers(s))
}

// Writes an accepted reply that is two numbers: what cut and redo reply.
fn write_two(buf: &mut [u8], at: usize, a: u64, b: u64) -> usize
    requires { at + length (two_text a b) ≤ length buf.old }
    ensures { Wrote buf.old at (two_text a b) result buf.new }
{
    write_numbers(buf, at, b"(ok", &[a, b])
}

// Writes a reply without its end.
#[tactic(auto, unfolding(crate::specs::Forms::answer_text, crate::specs::Forms::outcome_text, crate::specs::Held::outcome_with))]
pub(crate) fn write_form(
    buf: &mut [u8],
    at: usize,
    form: ReplyForm,
    xs: &[u64],
    ys: &[u64],
) -> usize
    requires { at + length (outcome_text (outcome_with form xs.now ys.now)) ≤ length buf.old }
    ensures { Wrote buf.old at (outcome_text (outcome_with form xs.now ys.now)) result
        buf.new }
{
    match form {
        ReplyForm::Refused(r) => write_one(buf, at, b"(refused", refusal_number(r)),
        ReplyForm::Opened => write_word(buf, at, b"(ok)"),
        ReplyForm::Added => write_listed(buf, at, b"(ready", xs),
        ReplyForm::Finished { number, overtaken } => write_finished(
            buf, at, number.0, xs, overtaken, ys,
        ),
        ReplyForm::Withdrawn => write_listed(buf, at, b"(dry", xs),
        ReplyForm::Persisted => write_persisted(buf, at, xs, ys),
        ReplyForm::Stabilised => write_listed(buf, at, b"(histories", xs),
        ReplyForm::Shows(s) => write_shown(buf, at, s),
        ReplyForm::Restarted { lines, used } => write_two(buf, at, lines, used),
        ReplyForm::Redone { ran, examined } => write_two(buf, at, ran, examined),
        ReplyForm::Ended => write_listed(buf, at, b"(waiting", xs),
    }
}
