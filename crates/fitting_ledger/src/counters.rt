// A session's counters in words: from call to call they stand in an array that is lent.
ghost use Rattle.std.specs.Prelude.{◌≡◌};
ghost use Rattle.call_words.specs.Counters.{site_at};
ghost use Rattle.fitting_ledger.specs.Counters.{session_at, site_counters, counters_after};

use call_words::bit;
use forms::LogNumber;
use session::Session;
use site::Site;
use table::Table;

// How many words there are: whether a site is open; its histories, bytes of the log in use, and of these those of its head; operations that
// its base line stands for, and those done, persistent, stable and left; whether it is restoring; the bytes that its waiting lines will
// take; operations done and still in the table, and not done (or waiting).
pub const COUNTERS: usize = 13;

pub type Counters = [u64; COUNTERS];

// The site whose counters these are, if it is open.
#[tactic(auto, unfolding(call_words::specs::Counters::site_at))]
fn site_at(words: &Counters) -> Site
    ensures { result ≡ site_at words.now }
{
    Site {
        count: words[1] as usize,
        used: words[2] as usize,
        head: words[3] as usize,
        base: LogNumber(words[4]),
        done: LogNumber(words[5]),
        persistent: LogNumber(words[6]),
        stable: LogNumber(words[7]),
        left: LogNumber(words[8]),
        restoring: words[9] == 1,
        reserved: words[10] as usize,
        table: Table {
            finished: words[11] as usize,
            queue: words[12] as usize,
        },
    }
}

// The session whose counters these are.
#[tactic(auto, unfolding(crate::specs::Counters::session_at))]
pub fn session_at(words: &Counters) -> Session
    ensures { result ≡ session_at words.now }
{
    let site = site_at(words);
    Session {
        site: if words[0] == 1 { Some(site) } else { None },
    }
}

// The site that is open, if one is.
pub(crate) fn site_in(words: &Counters) -> Option<Site>
    ensures { result ≡ (session_at words.now).site }
{
    session_at(words).site
}

// The counters of an open site.
#[tactic(auto, unfolding(call_words::specs::Counters::site_words))]
pub(crate) fn words_of(site: Site) -> Counters
    ensures { result ≡ site_counters site }
{
    [
        1,
        site.count as u64,
        site.used as u64,
        site.head as u64,
        site.base.0,
        site.done.0,
        site.persistent.0,
        site.stable.0,
        site.left.0,
        bit(site.restoring),
        site.reserved as u64,
        site.table.finished as u64,
        site.table.queue as u64,
    ]
}

// The counters become those of an open site.
pub(crate) fn put_site(words: &mut Counters, site: Site)
    ensures { words.new ≡ site_counters site }
{
    *words = words_of(site);
}

// .. or, without a site, say that none is open, and are else as they were.
pub(crate) fn put_session(words: &mut Counters, s: Session)
    ensures { words.new ≡ counters_after words.old s.site }
{
    match s.site {
        Some(site) => put_site(words, site),
        None => words[0] = 0,
    }
}
