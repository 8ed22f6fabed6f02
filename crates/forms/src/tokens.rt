// Reading bytes, numbers and words. Each function reads one thing at a position of a line and tells the position behind it. That the
// position lies in the line is asked here, in `updates`, `listed`, `standing` and `base`: a fact about line and position together, and not
// about a value that could have a type. The rest of a line in their place would need no such clause, but the log reader notes positions
// (`START`).
ghost use Rattle.std.specs.Prelude.{◌≡◌, [], ◌∷◌, ◌≤◌, ◌<◌, T, length, drop};
ghost use Rattle.forms.specs.Decimal.{number};
ghost use Rattle.forms.specs.Words.{word};
ghost use Rattle.forms.specs.Lists.{all};
ghost use Rattle.forms.specs.Plain.{is_letter, is_mark, first_is_letter};
ghost use Rattle.forms.specs.Names.{name, word_text, WordIn};
ghost use Rattle.forms.specs.Reading.{field};
ghost use Rattle.forms.specs.Read.{digit_of, GrownTo, Is, word_seen};

// The value of a digit.
fn digit_of(b: u8) -> Option<u8>
    ensures { result ≡ digit_of b }
{
    match b {
        b'0'..=b'9' => Some(b - b'0'),
        _ => None,
    }
}

// Whether a byte is a lower-case letter.
fn is_letter(b: u8) -> bool
    ensures { result ≡ is_letter b }
{
    matches!(b, b'a'..=b'z')
}

// The value whose digits are those of `value` and then `d`: none after a 0, and none above 2^64 - 1.
fn grow(value: u64, d: u8) -> Option<u64>
    requires { d < 10 }
    ensures { GrownTo value d result }
{
    if value == 0 {
        return None;
    }
    value.checked_mul(10)?.checked_add(u64::from(d))
}

// Reads the decimal number at a position.
pub(crate) fn read_number(s: &[u8], at: usize) -> Option<(u64, usize)>
    requires { at ≤ length s.now }
    ensures { Is s.now (number (drop at s.now)) result }
{
    if at == s.len() {
        return None;
    }
    let first = digit_of(s[at])?;
    let mut value = u64::from(first);
    for next in at + 1..s.len() {
        let Some(d) = digit_of(s[next]) else {
            return Some((value, next));
        };
        value = grow(value, d)?;
    }
    Some((value, s.len()))
}

// Reads the bracket or the space m at a position.
pub(crate) fn read_mark(s: &[u8], at: usize, m: u8) -> Option<usize>
    requires { (at ≤ length s.now) × T (is_mark m) }
    ensures { Is s.now (word (m ∷ []) (drop at s.now)) (word_seen result) }
{
    if at < s.len() && s[at] == m {
        Some(at + 1)
    } else {
        None
    }
}

// Whether a letter stands at a position.
fn letter_at(s: &[u8], at: usize) -> bool
    ensures { result ≡ first_is_letter (drop at s.now) }
{
    at < s.len() && is_letter(s[at])
}

// Reads the run of letters at a position, which must be the word w: a byte that is one of w's is a letter.
fn read_name(s: &[u8], at: usize, w: &[u8]) -> Option<usize>
    requires { (at ≤ length s.now) × T (all is_letter w.now) }
    ensures { Is s.now (name w.now (drop at s.now)) (word_seen result) }
{
    let mut next = at;
    for &b in w {
        if next == s.len() || s[next] != b {
            return None;
        }
        next += 1;
    }
    if letter_at(s, next) {
        return None;
    }
    Some(next)
}

// Reads an opening bracket, the word w and the bracket or space m behind it.
pub(crate) fn read_word(s: &[u8], at: usize, w: &[u8], m: u8) -> Option<usize>
    requires { (at ≤ length s.now) × WordIn w.now m }
    ensures { Is s.now (word (word_text w.now m) (drop at s.now)) (word_seen result) }
{
    let a = read_mark(s, at, b'(')?;
    let b = read_name(s, a, w)?;
    read_mark(s, b, m)
}

// Reads a space and a number at a position.
pub(crate) fn read_field(s: &[u8], at: usize) -> Option<(u64, usize)>
    requires { at ≤ length s.now }
    ensures { Is s.now (field (drop at s.now)) result }
{
    let next = read_mark(s, at, b' ')?;
    read_number(s, next)
}
