// Restart from any bytes, with its reply as text.
ghost use Rattle.rules.specs.Calls.{restart};
ghost use Rattle.c_api.specs.Codes.{PutsText, reply_text};

// "Restart takes the first K bytes": its reply, with its end, at the front of `out`.
#[unsafe(no_mangle)]
pub extern "C" fn site_restart(log: &[u8], k: usize, out: &mut [u8]) -> usize
    ensures { PutsText (reply_text (restart log.now k)) out.old result out.new }
{
    c_api::restart::site_restart(log, k, out)
}
