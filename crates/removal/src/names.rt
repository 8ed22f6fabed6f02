// The numbers that a report is given, and those that it names.
ghost use Rattle.std.specs.Prelude.{◌≡◌, ℕ, ◌+◌, ◌≤◌, length};
ghost use Rattle.removal.specs.Names.{KnownIf, PairsKnown, LostKnown, known, names, CanName, Writes, CanAnswer, Answers};

use forms::{LogNumber, Refusal};

// Whether a number is among those of the lines: above base, and not above done.
fn is_known(k: LogNumber, base: LogNumber, done: LogNumber) -> bool
    ensures { result ≡ known base.0 done.0 k.0 }
{
    base.0 < k.0 && k.0 <= done.0
}

// Whether the line of every pair is known.
fn pairs_known(pairs: &[u64], base: LogNumber, done: LogNumber) -> bool
    ensures { KnownIf result (PairsKnown pairs.now base.0 done.0) }
{
    for p in 0..pairs.len() / 2 {
        if !is_known(LogNumber(pairs[2 * p]), base, done) {
            return false;
        }
    }
    true
}

// Whether every line lost is known.
fn lost_known(lost: &[u64], base: LogNumber, done: LogNumber) -> bool
    ensures { KnownIf result (LostKnown lost.now base.0 done.0) }
{
    lost.iter().all(|k| is_known(LogNumber(*k), base, done))
}

// 16: "a log number that is not among the lines".
pub fn all_known(pairs: &[u64], lost: &[u64], base: LogNumber, done: LogNumber) -> bool
    ensures { KnownIf result (PairsKnown pairs.now base.0 done.0 × LostKnown lost.now base.0 done.0) }
{
    pairs_known(pairs, base, done) && lost_known(lost, base, done)
}

// How many of the first n lines are marked.
fn count_marks(gone: &[u8], n: usize) -> usize
    requires { n ≤ length gone.now }
    ensures { (base : ℕ) → result ≡ length (names base gone.now n) }
{
    gone[..n].iter().filter(|mark| **mark != 0).count()
}

// Writes the log numbers of those of the first n lines that are marked.
fn write_names(gone: &[u8], n: usize, base: LogNumber, out: &mut [u64])
    requires { CanName gone.now n base.0 (length out.old) }
    ensures { Writes (names base.0 gone.now n) out.old out.new }
{
    let mut at = 0;
    for (i, mark) in gone[..n].iter().enumerate() {
        if *mark != 0 {
            out[at] = base.0 + 1 + i as u64;
            at += 1;
        }
    }
}

// The log numbers of those of the first n lines that are marked, or 12 if they do not fit.
pub fn answer(gone: &[u8], n: usize, base: LogNumber, out: &mut [u64]) -> Result<usize, Refusal>
    requires { CanAnswer gone.now n base.0 }
    ensures { Answers (names base.0 gone.now n) out.old result out.new }
{
    let count = count_marks(gone, n);
    if out.len() < count {
        return Err(Refusal::NoRoom);
    }
    write_names(gone, n, base, out);
    Ok(count)
}
