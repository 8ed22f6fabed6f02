// A whole session over lent buffers, and polls of its site's histories at its end.
ghost use Rattle.c_api.specs.Polls.{PlaysPolls};

// A whole session, and each number of `histories` becomes what a poll of that history gives at its end: 1,001 if it is dry, 1,000
// if not, a refusal's number if there is none. They stay as they are where `out` is too short, or nearly.
#[unsafe(no_mangle)]
pub extern "C" fn session_polls(
    input: &[u8],
    log: &mut [u8],
    out: &mut [u8],
    histories: &mut [u64],
) -> usize
    ensures { PlaysPolls input.now log.old result log.new out.old out.new histories.old histories.new }
{
    c_api::polls::session_polls(input, log, out, histories)
}
