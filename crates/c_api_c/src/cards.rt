// The card of the last W lines of a log, counted afresh and following.
ghost use Rattle.rules.specs.Calls.{restart};
ghost use Rattle.c_api.specs.Cards.{CardsAfter};

use card::counts::Counts;

// Takes a site up from the first `begun` bytes of a log, and from the first `kept`, and gives the card of its last w lines then: the number
// of a refusal, or 1,000 more than the lines that count. Where `begun` bytes are a cut of the later log, the card is counted afresh of the
// earlier one and follows; else it is counted afresh.
#[unsafe(no_mangle)]
pub extern "C" fn log_card(
    log: &[u8],
    begun: usize,
    kept: usize,
    w: u64,
    counts: &mut Counts,
) -> u64
    ensures { CardsAfter w (restart log.now begun) (restart log.now kept) counts.old result counts.new }
{
    c_api::cards::log_card(log, begun, kept, w, counts)
}
