// A keeper's calls: how many bytes it keeps stands in a lent number, the lines in the first bytes of a lent buffer.
ghost use Rattle.rules.specs.Keeper.{keep_line, drop_lines};
ghost use Rattle.keeper.specs.Model.{ValidKeeper};
ghost use Rattle.fitting_station.specs.Keepers.{keeper_at, keeper_in};
ghost use Rattle.fitting_station.specs.Keepers.{StartsKeeper, ResumesKeeper, PerformsKeeper, HandsOver};

use fitting_station::keepers::Places;

// Begins a keeper that keeps nothing, in a buffer of any contents.
#[unsafe(no_mangle)]
pub extern "C" fn fl_keeper_start_parts(used: &mut usize, buf: &[u8])
    ensures { StartsKeeper used.new buf.now }
{
    fitting_station::keepers::fl_keeper_start_parts(used, buf)
}

// Takes a keeper up again from the whole lines among the first `kept` bytes of its buffer: 0, or 999 and an empty keeper where they are not
// what a keeper keeps.
#[unsafe(no_mangle)]
pub extern "C" fn fl_keeper_resume_parts(used: &mut usize, buf: &[u8], kept: usize) -> u64
    ensures { ResumesKeeper kept buf.now result used.new }
{
    fitting_station::keepers::fl_keeper_resume_parts(used, buf, kept)
}

// Keeps a did line, given without its end: 0, or the number of the refusal.
#[unsafe(no_mangle)]
pub extern "C" fn fl_keeper_keep_parts(used: &mut usize, buf: &mut [u8], line: &[u8]) -> u64
    requires { ValidKeeper (keeper_at used.old) buf.old }
    ensures { PerformsKeeper used.old buf.old (keep_line line.now (keeper_in used.old buf.old)) result
        used.new buf.new }
{
    fitting_station::keepers::fl_keeper_keep_parts(used, buf, line)
}

// Drops every line with that place or a lower one in that history: 0, or the number of the refusal.
#[unsafe(no_mangle)]
pub extern "C" fn fl_keeper_drop_parts(
    used: &mut usize,
    buf: &mut [u8],
    history: u64,
    place: u64,
) -> u64
    requires { ValidKeeper (keeper_at used.old) buf.old }
    ensures { PerformsKeeper used.old buf.old (drop_lines history place (keeper_in used.old buf.old)) result
        used.new buf.new }
{
    fitting_station::keepers::fl_keeper_drop_parts(used, buf, history, place)
}

// Hands out, in arrival order, every line with a place above its entry: 0, and `handed` is the bytes of these lines; or the number of the
// refusal.
#[unsafe(no_mangle)]
pub extern "C" fn fl_keeper_hand_out_parts(
    used: &usize,
    buf: &[u8],
    places: &Places,
    out: &mut [u8],
    handed: &mut usize,
) -> u64
    requires { ValidKeeper (keeper_at used.now) buf.now }
    ensures { HandsOver (keeper_in used.now buf.now) places.now out.old handed.old result handed.new out.new }
{
    fitting_station::keepers::fl_keeper_hand_out_parts(used, buf, places, out, handed)
}
