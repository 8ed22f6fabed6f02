// Fittings that go to two modules: one is split over them and counts when both have reported, one is mirrored and counts when one has.
ghost use Rattle.std.specs.Prelude.{◌≡◌};
ghost use Rattle.records.specs.Model.{ValidRecords, records_left};

use super::{put_bytes, say_refused};
use forms::Refusal;
use records::{Answer, Records, RecordsResult};

// Prints a reply.
fn say(rt: &impl Print, a: Result<Answer, Refusal>) {
    match a {
        Ok(Answer::Done) => put_bytes(rt, b"(ok)\n"),
        Ok(Answer::Persistent) => put_bytes(rt, b"(persistent)\n"),
        Ok(Answer::NotPersistent) => put_bytes(rt, b"(not persistent)\n"),
        Err(q) => say_refused(rt, q),
    }
}

// Prints the reply of a call, and gives the records after it: those of before where it was refused.
fn say_call(rt: &impl Print, before: Records, r: RecordsResult) -> Records
    ensures { result ≡ records_left before r }
{
    match r {
        Ok((s, a)) => {
            say(rt, Ok(a));
            s
        }
        Err(q) => {
            say(rt, Err(q));
            before
        }
    }
}

// Records a fitting that went to modules 0 and 1 with full details, and says so. Records and their numbers are two arguments here and
// below, as the calls about records take them.
fn record(rt: &impl Print, s: Records, words: &mut [u64], id: u64, threshold: u64) -> Records
    requires { ValidRecords s words.old }
    ensures { ValidRecords result words.new }
{
    say_call(rt, s, s.record(words, id, 3, 3, threshold))
}

// A module reports a fitting persistent; says what that makes of it.
fn report(rt: &impl Print, s: Records, words: &mut [u64], id: u64, site: u64) -> Records
    requires { ValidRecords s words.old }
    ensures { ValidRecords result words.new }
{
    say_call(rt, s, s.report(words, id, site))
}

// Forgets a fitting, and says so.
fn forget(rt: &impl Print, s: Records, words: &mut [u64], id: u64) -> Records
    requires { ValidRecords s words.old }
    ensures { ValidRecords result words.new }
{
    say_call(rt, s, s.forget(words, id))
}

// Says whether a fitting counts as persistent.
fn ask(rt: &impl Print, s: Records, words: &[u64], id: u64)
    requires { ValidRecords s words.now }
{
    say(rt, s.question(words, id));
}

// A split fitting, 5, and a mirrored one, 6.
pub fn two_modules(rt: &impl Print) {
    let mut words = [0u64; 320];
    let mut s = Records::empty();
    s = record(rt, s, &mut words, 5, 2);
    s = record(rt, s, &mut words, 6, 1);
    for (id, site) in [(5, 0), (5, 0), (6, 1), (5, 2), (5, 1)] {
        s = report(rt, s, &mut words, id, site);
    }
    ask(rt, s, &words, 5);
    s = forget(rt, s, &mut words, 5);
    ask(rt, s, &words, 5);
    ask(rt, s, &words, 6);
}
