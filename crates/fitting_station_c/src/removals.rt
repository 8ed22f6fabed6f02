// Which fittings must be taken back (02 (a)): the lines of a log that fall with lines lost for good. Nothing is required of what is lent.
ghost use Rattle.std.specs.Prelude.{length};
ghost use Rattle.recovery.specs.Removal.{pairs_of, report};
ghost use Rattle.fitting_station.specs.Removals.{RepliesRemovals};

// Names the lines that fall with those lost, by their log numbers, rising, at the front of `out`: 0, and `count` is how many they are; or
// the number of the refusal. Pairs are line and transaction in turn; a last number without a partner is no pair.
#[unsafe(no_mangle)]
pub extern "C" fn fl_removals(
    log: &[u8],
    pairs: &[u64],
    lost: &[u64],
    out: &mut [u64],
    count: &mut usize,
) -> u64
    ensures { RepliesRemovals (report log.now (pairs_of pairs.now) lost.now (length out.old)) out.old count.old result
        count.new out.new }
{
    fitting_station::removals::fl_removals(log, pairs, lost, out, count)
}
