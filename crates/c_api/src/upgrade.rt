// The changeover of a log that was written before there were stable lines.
ghost use Rattle.rules.specs.OldLog.{upgrade};
ghost use Rattle.c_api.specs.Changeovers.{ChangesOver};

use super::numbers::replied_number;
use older_log::upgrade;

// Gives the older log in the first `kept` bytes its stable line: a refusal's number, or 1,000 more than the bytes in use after it.
pub fn log_upgrade(log: &mut [u8], kept: usize) -> u64
    ensures { ChangesOver (upgrade log.old kept) log.old result log.new }
{
    replied_number(upgrade(log, kept))
}
