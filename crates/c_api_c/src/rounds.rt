// Calls of a site without text, one round after the other: for measuring what a call costs.
ghost use Rattle.std.specs.Prelude.{length};
ghost use Rattle.rules.specs.Calls.{open_site};
ghost use Rattle.c_api.specs.Rounds.{Rounds};

// Opens a site of four histories, adds and finishes the operations with the ids below n, and gives the bytes of the log then in use.
#[unsafe(no_mangle)]
pub extern "C" fn site_add_and_finish(log: &mut [u8], n: u64) -> usize
    ensures { Rounds (open_site 4 (length log.old)) n log.old result log.new }
{
    c_api::rounds::site_add_and_finish(log, n)
}
