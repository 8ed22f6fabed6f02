// The changeover of a log that was written before there were stable lines.
ghost use Rattle.rules.specs.OldLog.{upgrade};
ghost use Rattle.fitting_ledger.specs.Changeovers.{ChangesOver};

use call_words::said::put_said;
use older_log::upgrade;

// Gives the older log in the first `kept` bytes its stable line: 0, and `used` is the bytes in use after it; or the number of the refusal.
pub fn fl_upgrade(log: &mut [u8], kept: usize, used: &mut usize) -> u64
    ensures { ChangesOver (upgrade log.old kept) log.old result log.new used.old used.new }
{
    put_said(used, upgrade(log, kept))
}
