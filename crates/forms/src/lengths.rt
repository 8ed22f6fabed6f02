// How long a line is, before it is written.
ghost use Rattle.std.specs.Prelude.{◌≡◌, ◌+◌, ◌≤◌, ◌↔◌, length, IsTrue};
ghost use Rattle.forms.specs.Decimal.{digits};
ghost use Rattle.forms.specs.Write.{Measured, shown_numbers, two_size, reply_size};

use super::piece::all_length;
use super::writer::refusal_number;
use super::{ReplyForm, Shown};

// The number of digits of x. No index is counted: each turn takes a digit off, as `digits` does; `x.max(1).ilog10() as usize + 1` would say
// the 0 apart, and tell the others by powers of ten.
pub fn number_length(x: u64) -> usize
    ensures { Measured (digits x) 20 result }
{
    let mut count: usize = 1;
    let mut rest = x;
    while 10 <= rest {
        rest /= 10;
        count += 1;
    }
    count
}

// "Show: history, version, persistent, stable, place, profile."
pub(crate) fn shown_numbers(s: Shown) -> [u64; 6]
    ensures { result ≡ shown_numbers s }
{
    [
        s.history,
        s.version.0,
        s.persistent.0,
        s.stable.0,
        s.place.0,
        s.profile,
    ]
}

// The length of what `show` gives, with its end.
fn shown_length(s: Shown) -> usize
    ensures value { result ≡ reply_size (ReplyForm.Shows s) 0 0 }
    ensures upper_bound { result ≤ 1354 }
{
    all_length(&shown_numbers(s)) + 10
}

// The length of a reply that is two numbers, with its end.
fn two_length(x: u64, y: u64) -> usize
    ensures value { result ≡ two_size x y }
    ensures upper_bound { result ≤ 47 }
{
    number_length(x) + number_length(y) + 7
}

// The length of a reply with its end, where a and b are the lengths of its lists of numbers.
#[tactic(auto, unfolding(crate::specs::Write::reply_size))]
pub(crate) fn form_length(form: ReplyForm, a: usize, b: usize) -> usize
    requires { (a ≤ 1344) × (b ≤ 1344) }
    ensures { result ≡ reply_size form a b }
{
    match form {
        ReplyForm::Refused(r) => number_length(refusal_number(r)) + 11,
        ReplyForm::Opened => 5,
        ReplyForm::Added => a + 13,
        ReplyForm::Finished {
            number,
            overtaken: _,
        } => number_length(number.0) + a + b + 33,
        ReplyForm::Withdrawn => a + 11,
        ReplyForm::Persisted => a + b + 22,
        ReplyForm::Stabilised => a + 17,
        ReplyForm::Shows(s) => shown_length(s),
        ReplyForm::Restarted { lines, used } => two_length(lines, used),
        ReplyForm::Redone { ran, examined } => two_length(ran, examined),
        ReplyForm::Ended => a + 15,
    }
}

// Whether n bytes fit at a position of a buffer.
pub(crate) fn has_room(length: usize, at: usize, n: usize) -> bool
    ensures { IsTrue result ↔ at + n ≤ length }
{
    at <= length && n <= length - at
}
