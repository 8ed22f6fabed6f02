// What a call that names a number of bytes, or of lines, returns.
ghost use Rattle.std.specs.Prelude.{◌≡◌};
ghost use Rattle.call_words.specs.Said.{said_number, said_value};

use forms::Refusal;

// 0, and `value` is what is named; or the number of the refusal.
#[tactic(auto, unfolding(crate::specs::Said::said_number, crate::specs::Said::said_value))]
pub fn put_said(value: &mut usize, r: Result<usize, Refusal>) -> u64
    ensures { (result ≡ said_number r) × (value.new ≡ said_value r value.old) }
{
    match r {
        Ok(n) => {
            *value = n;
            0
        }
        Err(q) => u64::from(q),
    }
}
