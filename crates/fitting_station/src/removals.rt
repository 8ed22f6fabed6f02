// Which fittings must be taken back (02 (a)): the lines of a log that fall with lines lost for good. Nothing is required of what is lent.
ghost use Rattle.std.specs.Prelude.{◌≡◌, length};
ghost use Rattle.recovery.specs.Removal.{pairs_of, report};
ghost use Rattle.fitting_station.specs.Removals.{removals_number, removals_named, RepliesRemovals};

use forms::Refusal;
use removal::report;

// 16: "a log number that is not among the lines".
const NOT_AMONG: u64 = 16;

// 0 for a report, and `named` is how many log numbers it names; or the number of the refusal: C is told numbers alone.
#[tactic(auto, unfolding(crate::specs::Removals::removals_number, crate::specs::Removals::removals_named))]
fn put_named(named: &mut usize, r: Result<Option<usize>, Refusal>) -> u64
    ensures { (result ≡ removals_number r) × (named.new ≡ removals_named r named.old) }
{
    match r {
        Ok(Some(k)) => {
            *named = k;
            0
        }
        Ok(None) => NOT_AMONG,
        Err(refusal) => refusal.into(),
    }
}

// Names the lines that fall with those lost, by their log numbers, rising, at the front of `out`: 0, and `count` is how many they are; or
// the number of the refusal. Pairs are line and transaction in turn; a last number without a partner is no pair.
pub fn fl_removals(
    log: &[u8],
    pairs: &[u64],
    lost: &[u64],
    out: &mut [u64],
    count: &mut usize,
) -> u64
    ensures { RepliesRemovals (report log.now (pairs_of pairs.now) lost.now (length out.old)) out.old count.old result
        count.new out.new }
{
    let r = report(log, pairs, lost, out);
    put_named(count, r)
}
