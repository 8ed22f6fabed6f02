// The card of the last W lines of a log, counted afresh and following.
ghost use Rattle.rules.specs.Calls.{restart};
ghost use Rattle.c_api.specs.Taken.{SomeUp};
ghost use Rattle.c_api.specs.Cards.{CardsOf, CanGoOn, CardsOn, CardsTaken, CardsAfter};

use super::numbers::replied_number;
use super::taken::take_up;
use card::Card;
use card::counts::Counts;
use forms::Refusal;
use site::Site;

// The card of a site, counted afresh: the lines that count.
fn card_afresh(site: Site, log: &[u8], w: u64, counts: &mut Counts) -> Result<usize, Refusal>
    requires { SomeUp site log.now }
    ensures { CardsOf site log.now w counts.old result counts.new }
{
    let c = Card::afresh(w, &log[..site.used], site.count, site.head, counts)?;
    Ok(c.lines)
}

// .. counted afresh of a log that goes on, and following it.
fn card_on(
    first: Site,
    site: Site,
    log: &[u8],
    w: u64,
    counts: &mut Counts,
) -> Result<usize, Refusal>
    requires { CanGoOn first site log.now }
    ensures { CardsOn first site log.now w counts.old result counts.new }
{
    let c = Card::afresh(w, &log[..first.used], first.count, first.head, counts)?;
    let d = c.follow(&log[..site.used], counts);
    Ok(d.lines)
}

// The card of the later of two sites that are taken up from a log. Where the earlier one's bytes are a cut of the later log, the card is
// counted afresh of the earlier one and follows; else it is counted afresh.
fn card_taken(
    log: &[u8],
    begun: usize,
    kept: usize,
    w: u64,
    counts: &mut Counts,
) -> Result<usize, Refusal>
    ensures { CardsTaken w (restart log.now begun) (restart log.now kept) counts.old result counts.new }
{
    let first = take_up(log, begun)?;
    let site = take_up(log, kept)?;
    if site.head <= begun && begun <= site.used {
        return card_on(first, site, log, w, counts);
    }
    card_afresh(site, log, w, counts)
}

// Takes a site up from the first `begun` bytes of a log, and from the first `kept`, and gives the card of its last w lines then: the number
// of a refusal, or 1,000 more than the lines that count.
pub fn log_card(log: &[u8], begun: usize, kept: usize, w: u64, counts: &mut Counts) -> u64
    ensures { CardsAfter w (restart log.now begun) (restart log.now kept) counts.old result counts.new }
{
    replied_number(card_taken(log, begun, kept, w, counts))
}
