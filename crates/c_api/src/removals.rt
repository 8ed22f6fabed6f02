// Which fittings must be taken back.
ghost use Rattle.std.specs.Prelude.{◌≡◌, ℕ, ◌+◌, ◌≤◌, length, Ok, Some};
ghost use Rattle.recovery.specs.Removal.{pairs_of, report};
ghost use Rattle.c_api.specs.Removals.{removals_number, RepliesRemovals};

use forms::Refusal;

// The number for what a report answers.
#[tactic(auto, unfolding(crate::specs::Removals::removals_number))]
fn removals_number(r: Result<Option<usize>, Refusal>) -> u64
    requires { (k : ℕ) → r ≡ Ok (Some k) → k + 1000 ≤ 18446744073709551615 }
    ensures { result ≡ removals_number r }
{
    match r {
        Ok(Some(k)) => k as u64 + 1000,
        Ok(None) => 16,
        Err(q) => u64::from(q),
    }
}

// The log numbers of the lines that fall with those lost, at the front of `out`: a refusal's number, or 1,000 more than how many they are.
// Pairs are line and transaction in turn; a last number without a partner is no pair.
pub fn log_removals(log: &[u8], pairs: &[u64], lost: &[u64], out: &mut [u64]) -> u64
    ensures { RepliesRemovals (report log.now (pairs_of pairs.now) lost.now (length out.old)) out.old result out.new }
{
    removals_number(removal::report(log, pairs, lost, out))
}
