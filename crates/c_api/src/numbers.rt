// The answers of calls as numbers, for callers in other languages.
ghost use Rattle.std.specs.Prelude.{◌≡◌, ℕ, ◌+◌, ◌≤◌, Ok};
ghost use Rattle.c_api.specs.Codes.{replied_number};

use forms::Refusal;

// The number of a refusal, or 1,000 more than what is told. The C interface tells the two by one number.
#[tactic(auto, unfolding(crate::specs::Codes::replied_number))]
pub(crate) fn replied_number(r: Result<usize, Refusal>) -> u64
    requires { (n : ℕ) → r ≡ Ok n → n + 1000 ≤ 18446744073709551615 }
    ensures { result ≡ replied_number r }
{
    match r {
        Ok(n) => n as u64 + 1000,
        Err(q) => u64::from(q),
    }
}
