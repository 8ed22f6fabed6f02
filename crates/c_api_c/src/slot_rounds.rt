// Calls of a slot of a module without text, one round after the other: for measuring what they cost beside those of a site (rounds.rt).
ghost use Rattle.std.specs.Prelude.{length};
ghost use Rattle.compact.specs.Module.{Move, reply_of, made};
ghost use Rattle.c_api.specs.Rounds.{Rounds};

// Opens a site of four histories in a slot of a module, adds and finishes the operations with the ids below n there, and gives the bytes of
// its log then in use: what a site alone does, since nobody opens the others.
#[unsafe(no_mangle)]
pub extern "C" fn slot_add_and_finish(log: &mut [u8], slot: usize, n: u64) -> usize
    ensures { Rounds (reply_of (Move.Open slot 4 (length log.old)) made) n log.old result log.new }
{
    c_api::slot_rounds::slot_add_and_finish(log, slot, n)
}
