// A keeper's calls. The first `used` bytes of a buffer are the kept lines; a call returns a refusal's number, or 1,000 more than
// a number of bytes.
ghost use Rattle.rules.specs.Keeper.{keep_line, drop_lines};
ghost use Rattle.c_api.specs.KeeperCalls.{keeper_in, Replies, HandsOver};

// Keeps a did line, given without its end: 1,000 more than the bytes in use after it.
#[unsafe(no_mangle)]
pub extern "C" fn keeper_keep(buf: &mut [u8], used: usize, line: &[u8]) -> u64
    ensures { Replies used buf.old (keep_line line.now (keeper_in used buf.old)) result
        buf.new }
{
    c_api::keepers::keeper_keep(buf, used, line)
}

// Drops every line with that place or a lower one in that history: 1,000 more than the bytes in use after it.
#[unsafe(no_mangle)]
pub extern "C" fn keeper_drop(buf: &mut [u8], used: usize, history: u64, place: u64) -> u64
    ensures { Replies used buf.old (drop_lines history place (keeper_in used buf.old)) result buf.new }
{
    c_api::keepers::keeper_drop(buf, used, history, place)
}

// Hands out every line with a place above its entry, of sixteen, into a second buffer: 1,000 more than the bytes handed out.
#[unsafe(no_mangle)]
pub extern "C" fn keeper_hand_out(buf: &[u8], used: usize, places: &[u64], out: &mut [u8]) -> u64
    ensures { HandsOver used buf.now places.now out.old result out.new }
{
    c_api::keepers::keeper_hand_out(buf, used, places, out)
}
