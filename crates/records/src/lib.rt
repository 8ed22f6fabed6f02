// Records of operations that live on several modules (02, (e)), beside the kept lines of a keeper: which sites an operation was sent to,
// which of these hold full details, which reported it persistent. They stand in an array of numbers that the caller lends, and nothing else
// is lent to these calls. A public call requires that at most 64 are in use and that the array has room for 64; a refused call changes
// nothing, and no call changes a number past those in use after it.
#![tactic(auto)]

mod masks;
mod words;

ghost use Rattle.std.specs.Prelude.{◌≡◌};
ghost use Rattle.rules.specs.Records.{is_for, counts, sites_of, record_refusal, record_new, report, question, forget_record};
ghost use Rattle.rules.specs.Records.{wrong_threshold};
ghost use Rattle.history.specs.Asking.{verdict_of};
ghost use Rattle.records.specs.Model.{record_of, records_view, ValidRecords, NoRecords, place_of};
ghost use Rattle.records.specs.Model.{answer_by, answer_in, RecordsGive};

use forms::Refusal;
use history::Verdict;
use masks::{bit, has_site, is_outside, ones};
use words::{Record, WIDTH, close_gap, id_at, put_record, record_at};

// How many records there are. They stand in the first numbers of an array that is lent; the array is no field, since the calls that C makes
// lend it as an argument of its own.
#[derive(Clone, Copy)]
pub struct Records {
    pub count: usize,
}

// What a call replies that is not refused.
#[derive(Clone, Copy, PartialEq, Eq)]
pub enum Answer {
    Done,
    Persistent,
    NotPersistent,
}

// The records after a call, and its reply. A refused call leaves the records as they came.
pub type RecordsResult = Result<(Records, Answer), Refusal>;

// Whether the operation counts as persistent: the ones of the mask of full and persistent copies against the threshold.
fn is_persistent(r: Record) -> bool
    ensures { result ≡ counts (record_of r) }
{
    r.threshold <= ones(r.full & r.reported)
}

// Whether a threshold is 0, or above the number of full copies.
fn is_wrong(threshold: u64, full: u8) -> bool
    ensures { result ≡ wrong_threshold threshold (sites_of full) }
{
    threshold == 0 || ones(full) < threshold
}

impl Records {
    // "a 65th record 10"
    pub const LIMIT: usize = forms::limits::RECORDS;

    // No records, in numbers of any contents.
    pub fn empty() -> Records
        ensures { NoRecords result }
    {
        Records { count: 0 }
    }

    // Where the record of an operation stands.
    fn find(self, words: &[u64], id: u64) -> Option<usize>
        requires { ValidRecords self words.now }
        ensures { result ≡ place_of (is_for id) (records_view self words.now) }
    {
        (0..self.count).find(|i| id_at(words, *i) == id)
    }

    // The refusals of a new record: 7, 10, 18 and 19.
    fn check_new(self, words: &[u64], id: u64, sent: u8, full: u8, threshold: u64) -> Verdict
        requires { ValidRecords self words.now }
        ensures { result ≡ verdict_of (record_refusal id (sites_of sent) (sites_of full) threshold
            (records_view self words.now)) }
    {
        if self.find(words, id).is_some() {
            return Err(Refusal::IdPending);
        }
        if self.count == Records::LIMIT {
            return Err(Refusal::TableFull);
        }
        if is_wrong(threshold, full) {
            return Err(Refusal::WrongThreshold);
        }
        if is_outside(sent, full) {
            return Err(Refusal::NotSent);
        }
        Ok(())
    }

    // Records an operation, with the masks of the sites it was sent to and of the full copies, and its threshold.
    pub fn record(
        self,
        words: &mut [u64],
        id: u64,
        sent: u8,
        full: u8,
        threshold: u64,
    ) -> RecordsResult
        requires { ValidRecords self words.old }
        ensures { RecordsGive self words.old (record_new id sent full threshold (records_view self words.old)) result
            words.new }
    {
        self.check_new(words, id, sent, full, threshold)?;
        let new = Record {
            id,
            sent,
            full,
            reported: 0,
            threshold,
        };
        put_record(words, self.count, new);
        let after = Records {
            count: self.count + 1,
        };
        Ok((after, Answer::Done))
    }

    // A site reports an operation persistent; replies what the question would reply after it.
    pub fn report(self, words: &mut [u64], id: u64, site: u64) -> RecordsResult
        requires { ValidRecords self words.old }
        ensures { RecordsGive self words.old (report id site (records_view self words.old)) result
            words.new }
    {
        let i = self.find(words, id).ok_or(Refusal::NotSent)?;
        let r = record_at(words, i);
        if !has_site(r.sent, site) {
            return Err(Refusal::NotSent);
        }
        let next = Record {
            reported: r.reported | bit(site),
            ..r
        };
        put_record(words, i, next);
        Ok((self, answer_of(next)))
    }

    // Whether an operation counts as persistent.
    pub fn question(self, words: &[u64], id: u64) -> Result<Answer, Refusal>
        requires { ValidRecords self words.now }
        ensures { result ≡ answer_in (question id (records_view self words.now)) }
    {
        let i = self.find(words, id).ok_or(Refusal::NotSent)?;
        Ok(answer_of(record_at(words, i)))
    }

    // Forgets the record of an operation; those behind it move up.
    pub fn forget(self, words: &mut [u64], id: u64) -> RecordsResult
        requires { ValidRecords self words.old }
        ensures { RecordsGive self words.old (forget_record id (records_view self words.old)) result
            words.new }
    {
        let i = self.find(words, id).ok_or(Refusal::NotSent)?;
        let last = self.count - 1;
        close_gap(words, WIDTH * i, WIDTH * last);
        Ok((Records { count: last }, Answer::Done))
    }
}

// The reply about a record.
fn answer_of(r: Record) -> Answer
    ensures { result ≡ answer_by (counts (record_of r)) }
{
    if is_persistent(r) {
        Answer::Persistent
    } else {
        Answer::NotPersistent
    }
}
