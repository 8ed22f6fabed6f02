// A site taken up from the first bytes of a log.
ghost use Rattle.rules.specs.Calls.{restart};
ghost use Rattle.c_api.specs.Taken.{TakesUp};

use forms::{Refusal, ReplyForm};
use history::book::WIDTH;
use site::Site;
use table::rows::ROW;

// The site, or why there is none.
pub(crate) fn take_up(log: &[u8], kept: usize) -> Result<Site, Refusal>
    ensures { TakesUp (restart log.now kept) log.now result }
{
    let mut rows = [0u64; Site::LIVE * ROW];
    let mut order = [0u8; Site::LIVE];
    let mut book = [0u64; Site::HISTORIES * WIDTH];
    let c = Site::restart(log, &mut rows, &mut order, &mut book, kept);
    match c.reply.form {
        ReplyForm::Refused(q) => Err(q),
        _ => Ok(c.site),
    }
}
