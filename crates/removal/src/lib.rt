// Which fittings must be taken back (02 (a)): the lines that fall with lines lost for good. The log, the pairs and the lines lost are only
// read; a refused report changes nothing, and no report changes a number behind its answer. Nothing is required of what is lent.
#![tactic(auto)]

pub mod chains;
pub mod fall;
mod names;
mod slots;

ghost use Rattle.removal.specs.Model.{Reports, FallsIn, ReadsLines};

use fall::{Marks, mark};
use forms::Refusal;
use forms::limits::{HISTORIES, LIVE, LOG_BYTES};
use history::book::WIDTH;
use log_reader::notes::NOTE;
use log_reader::{Journal, read_log};
use names::{all_known, answer};
use slots::{blank_slots, read_slots};

// The marks of the lines of a printed log that fall.
fn marks_of(s: &[u8], j: Journal, pairs: &[u64], lost: &[u64]) -> Marks
    requires { ReadsLines s.now j pairs.now lost.now }
    ensures { FallsIn s.now j pairs.now lost.now result }
{
    let n = (j.done.0 - j.base.0) as usize;
    let mut slots = blank_slots();
    read_slots(s, j.head, j.base, &mut slots);
    mark(&slots[..8 * n], pairs, lost, j.base)
}

// "The report names the least such set, rising": the log numbers of the lines that fall with those lost, at the front of `out`. The answer
// is how many they are, or none where a number is not among the lines: 16 is met by no other call.
pub fn report(
    log: &[u8],
    pairs: &[u64],
    lost: &[u64],
    out: &mut [u64],
) -> Result<Option<usize>, Refusal>
    ensures { Reports log.now pairs.now lost.now out.old result out.new }
{
    if LOG_BYTES < log.len() {
        return Err(Refusal::AboveLimit);
    }
    let mut book = [0u64; HISTORIES * WIDTH];
    let mut notes = [0u64; LIVE * NOTE];
    let Some(j) = read_log(log, &mut book, &mut notes) else {
        return Err(Refusal::BadLog);
    };
    if !all_known(pairs, lost, j.base, j.done) {
        return Ok(None);
    }
    let gone = marks_of(&log[..j.used], j, pairs, lost);
    answer(&gone, (j.done.0 - j.base.0) as usize, j.base, out).map(Some)
}
