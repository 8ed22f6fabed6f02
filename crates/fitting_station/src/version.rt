// What a header must agree with before it lends anything.
ghost use Rattle.std.specs.Prelude.{◌≡◌, ℕ, ◌*◌, ◌≤◌, List};
ghost use Rattle.forms.specs.Limits.{history_limit, record_limit};
ghost use Rattle.records.specs.Model.{width};
ghost use Rattle.recovery.specs.Removal.{Pair, refused, report};

use super::record_calls::RECORD_WORDS;
use forms::limits::HISTORIES;
use removal::fall::LINES;

// The version of the calls and of what is lent to them.
pub fn fl_station_version() -> u64
    ensures { result ≡ 4 }
{
    4
}

// How many numbers the records have.
pub fn fl_record_words() -> usize
    ensures { result ≡ width * record_limit }
{
    RECORD_WORDS
}

// How many places a list of kept places has.
pub fn fl_place_words() -> usize
    ensures { result ≡ history_limit }
{
    HISTORIES
}

// How many numbers are room for every report of the lines that fall: no log has more did lines.
pub fn fl_log_lines() -> usize
    ensures { (result ≡ 2978) × ((log : List ℕ) (ps : List Pair) (lost : List ℕ) (room : ℕ) → result ≤ room →
        report log ps lost room ≡ refused 12 → ⊥) }
{
    LINES
}
