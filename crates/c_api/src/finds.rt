// The cut of a log that leaves given places.
ghost use Rattle.std.specs.Prelude.{◌≡◌};
ghost use Rattle.rules.specs.Calls.{restart};
ghost use Rattle.c_api.specs.Finds.{find_after};

use super::taken::take_up;
use find_cut::cut_number;

// Takes a site up from the first `kept` bytes of a log and names the smallest number of bytes of its log whose cut leaves these places: the
// number of a refusal, of the restart or 21, or 1,000 more than that number.
pub fn log_find_cut(log: &[u8], kept: usize, places: &[u64]) -> u64
    ensures { result ≡ find_after places.now (restart log.now kept) }
{
    match take_up(log, kept) {
        Ok(site) => cut_number(site, log, places),
        Err(q) => u64::from(q),
    }
}
