// A copy of a log with a base line in place of its first operations.
ghost use Rattle.rules.specs.Calls.{restart};
ghost use Rattle.c_api.specs.Trims.{trim_after, Trims};

use super::numbers::replied_number;
use super::taken::take_up;
use forms::LogNumber;
use trim::trim;

// Takes a site up from the first `kept` bytes of a log and copies its log into a fresh buffer, with a base line in place of its first n
// operations: the number of a refusal, of the restart or of the trim, or 1,000 more than the bytes used there.
pub fn log_trim(log: &[u8], kept: usize, n: u64, fresh: &mut [u8]) -> u64
    ensures { Trims (trim_after n fresh.old (restart log.now kept)) fresh.old result fresh.new }
{
    match take_up(log, kept) {
        Ok(site) => replied_number(trim(site, log, LogNumber(n), fresh)),
        Err(q) => u64::from(q),
    }
}
