// A whole session over lent buffers.
ghost use Rattle.c_api.specs.Play.{Plays};

// All replies of the input's session at the front of `out`, and how many bytes they are: 2^64 − 1 where `out` is too short, or nearly.
#[unsafe(no_mangle)]
pub extern "C" fn session_whole(input: &[u8], log: &mut [u8], out: &mut [u8]) -> usize
    ensures { Plays input.now log.old result log.new out.old out.new }
{
    c_api::play::session_whole(input, log, out)
}
