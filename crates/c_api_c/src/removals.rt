// Which fittings must be taken back.
ghost use Rattle.std.specs.Prelude.{length};
ghost use Rattle.recovery.specs.Removal.{pairs_of, report};
ghost use Rattle.c_api.specs.Removals.{RepliesRemovals};

// The log numbers of the lines that fall with those lost, at the front of `out`: a refusal's number, or 1,000 more than how many they are.
// Pairs are line and transaction in turn; a last number without a partner is no pair.
#[unsafe(no_mangle)]
pub extern "C" fn log_removals(log: &[u8], pairs: &[u64], lost: &[u64], out: &mut [u64]) -> u64
    ensures { RepliesRemovals (report log.now (pairs_of pairs.now) lost.now (length out.old)) out.old result out.new }
{
    c_api::removals::log_removals(log, pairs, lost, out)
}
