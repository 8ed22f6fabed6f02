// Records in an array of numbers, which C lends.
ghost use Rattle.std.specs.Prelude.{◌≡◌, ◌+◌, ◌*◌, ◌≤◌, length};
ghost use Rattle.forms.specs.Write.{placed};
ghost use Rattle.history.specs.Words.{within};
ghost use Rattle.records.specs.Model.{width, numbers_of, record_from, GapClosed};

// How many numbers a record has.
pub(crate) const WIDTH: usize = 5;

// A record: its masks have one bit a site.
#[derive(Clone, Copy)]
pub(crate) struct Record {
    pub id: u64,
    pub sent: u8,
    pub full: u8,
    pub reported: u8,
    pub threshold: u64,
}

// A number below 256, and 0 for any other. The table's `small_byte` is the same call of the library: a public function for both would only
// give it another name.
fn mask_of(n: u64) -> u8
    ensures { result ≡ within 256 n }
{
    u8::try_from(n).unwrap_or(0)
}

// The id of record i.
pub(crate) fn id_at(words: &[u64], i: usize) -> u64
    requires { width * i + width ≤ length words.now }
    ensures { result ≡ (record_from words.now i).id }
{
    words[WIDTH * i]
}

// Record i.
pub(crate) fn record_at(words: &[u64], i: usize) -> Record
    requires { width * i + width ≤ length words.now }
    ensures { result ≡ record_from words.now i }
{
    let at = WIDTH * i;
    Record {
        id: words[at],
        sent: mask_of(words[at + 1]),
        full: mask_of(words[at + 2]),
        reported: mask_of(words[at + 3]),
        threshold: words[at + 4],
    }
}

// Record i becomes r.
pub(crate) fn put_record(words: &mut [u64], i: usize, r: Record)
    requires { width * i + width ≤ length words.old }
    ensures { words.new ≡ placed words.old (width * i) (numbers_of r) }
{
    let numbers = [
        r.id,
        u64::from(r.sent),
        u64::from(r.full),
        u64::from(r.reported),
        r.threshold,
    ];
    words[WIDTH * i..WIDTH * i + WIDTH].copy_from_slice(&numbers);
}

// The numbers of one record, at `at`, are left out: those behind it, up to `end`, move up.
pub(crate) fn close_gap(words: &mut [u64], at: usize, end: usize)
    requires { (at ≤ end) × (end + width ≤ length words.old) }
    ensures { GapClosed at end words.old words.new }
{
    words.copy_within(at + WIDTH..end + WIDTH, at);
}
