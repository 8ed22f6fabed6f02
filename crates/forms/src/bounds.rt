// That a line's numbers can be written, and how long it is at most, told without counting: its numbers have 64 bits, and only reading a
// number tells the prover that. The functions compute nothing, and nothing of them is left in a compiled program.
ghost use Rattle.std.specs.Prelude.{◌≤◌, length};
ghost use Rattle.forms.specs.Limits.{reply_limit};
ghost use Rattle.forms.specs.Decimal.{digits, top};
ghost use Rattle.forms.specs.Held.{as_change};
ghost use Rattle.forms.specs.Writable.{WritableChange};
ghost use Rattle.forms.specs.Write.{reply_size};

use super::writer::refusal_number;
use super::{Done, ReplyForm, Shown};

// A number has 64 bits.
pub fn bound_number(n: u64)
    ensures { n ≤ top }
{}

// A number has at most 20 digits.
pub(crate) fn bound_digits(n: u64)
    ensures { length (digits n) ≤ 20 }
{
    bound_number(n);
}

// An update that was done.
pub fn bound_change(d: Done)
    ensures { WritableChange (as_change d) }
{
    bound_number(d.history);
    bound_number(d.version.0);
    bound_number(d.place.0);
    bound_number(d.operand);
}

// What `show` gives.
#[tactic(auto, unfolding(crate::specs::Write::reply_size))]
fn bound_shown(s: Shown)
    ensures { reply_size (ReplyForm.Shows s) 1344 1344 ≤ reply_limit }
{
    bound_digits(s.history);
    bound_digits(s.version.0);
    bound_digits(s.persistent.0);
    bound_digits(s.stable.0);
    bound_digits(s.place.0);
    bound_digits(s.profile);
}

// A reply with its end, whose lists have at most 1,344 bytes each.
#[tactic(auto, unfolding(crate::specs::Write::reply_size))]
pub(crate) fn bound_form(form: ReplyForm)
    ensures { reply_size form 1344 1344 ≤ reply_limit }
{
    match form {
        ReplyForm::Refused(r) => bound_digits(refusal_number(r)),
        ReplyForm::Finished {
            number,
            overtaken: _,
        } => bound_digits(number.0),
        ReplyForm::Shows(s) => bound_shown(s),
        ReplyForm::Restarted { lines, used } => {
            bound_digits(lines);
            bound_digits(used);
        }
        ReplyForm::Redone { ran, examined } => {
            bound_digits(ran);
            bound_digits(examined);
        }
        ReplyForm::Opened
        | ReplyForm::Added
        | ReplyForm::Withdrawn
        | ReplyForm::Persisted
        | ReplyForm::Stabilised
        | ReplyForm::Ended => {}
    }
}
