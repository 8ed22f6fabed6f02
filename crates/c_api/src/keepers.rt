// A keeper's calls. The first `used` bytes of a buffer are the kept lines; a call returns a refusal's number, or 1,000 more than
// a number of bytes.
ghost use Rattle.rules.specs.Keeper.{keep_line, drop_lines};
ghost use Rattle.c_api.specs.KeeperCalls.{keeper_in, Replies, HandsOver};

use super::numbers::replied_number;
use forms::Place;
use forms::limits::HISTORIES;
use keeper::Keeper;

// Bytes that are not what a keeper keeps.
const NO_KEEPER: u64 = 999;

// Places that are not sixteen.
const NOT_SIXTEEN: u64 = 998;

// Keeps a did line, given without its end: 1,000 more than the bytes in use after it.
pub fn keeper_keep(buf: &mut [u8], used: usize, line: &[u8]) -> u64
    ensures { Replies used buf.old (keep_line line.now (keeper_in used buf.old)) result
        buf.new }
{
    let Some(k) = Keeper::resume(buf, used) else {
        return NO_KEEPER;
    };
    let kept = k.keep(buf, line);
    replied_number(kept.map(|k| k.used))
}

// Drops every line with that place or a lower one in that history: 1,000 more than the bytes in use after it.
pub fn keeper_drop(buf: &mut [u8], used: usize, history: u64, place: u64) -> u64
    ensures { Replies used buf.old (drop_lines history place (keeper_in used buf.old)) result buf.new }
{
    let Some(k) = Keeper::resume(buf, used) else {
        return NO_KEEPER;
    };
    let kept = k.drop_lines(buf, history, Place(place));
    replied_number(kept.map(|k| k.used))
}

// Hands out every line with a place above its entry, of sixteen, into a second buffer: 1,000 more than the bytes handed out.
pub fn keeper_hand_out(buf: &[u8], used: usize, places: &[u64], out: &mut [u8]) -> u64
    ensures { HandsOver used buf.now places.now out.old result out.new }
{
    let Some(k) = Keeper::resume(buf, used) else {
        return NO_KEEPER;
    };
    let Some(sixteen) = places.as_array::<HISTORIES>() else {
        return NOT_SIXTEEN;
    };
    let handed = k.hand_out(buf, *sixteen, out);
    replied_number(handed)
}
