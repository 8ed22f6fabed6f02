// What a header must agree with before it lends anything.
ghost use Rattle.std.specs.Prelude.{◌≡◌, ℕ, ◌*◌, ◌≤◌, List};
ghost use Rattle.forms.specs.Limits.{history_limit, record_limit};
ghost use Rattle.records.specs.Model.{width};
ghost use Rattle.recovery.specs.Removal.{Pair, refused, report};

// The version of the calls and of what is lent to them.
#[unsafe(no_mangle)]
pub extern "C" fn fl_station_version() -> u64
    ensures { result ≡ 4 }
{
    fitting_station::version::fl_station_version()
}

// How many numbers the records have.
#[unsafe(no_mangle)]
pub extern "C" fn fl_record_words() -> usize
    ensures { result ≡ width * record_limit }
{
    fitting_station::version::fl_record_words()
}

// How many places a list of kept places has.
#[unsafe(no_mangle)]
pub extern "C" fn fl_place_words() -> usize
    ensures { result ≡ history_limit }
{
    fitting_station::version::fl_place_words()
}

// How many numbers are room for every report of the lines that fall: no log has more did lines.
#[unsafe(no_mangle)]
pub extern "C" fn fl_log_lines() -> usize
    ensures { (result ≡ 2978) × ((log : List ℕ) (ps : List Pair) (lost : List ℕ) (room : ℕ) → result ≤ room →
        report log ps lost room ≡ refused 12 → ⊥) }
{
    fitting_station::version::fl_log_lines()
}
