// Calls about records: how many there are stands in a lent number, the records in the first numbers of a lent array, five each: id, masks
// of the sites sent to, of the full copies and of the reports, threshold. C lends the two one by one, so that each call asks that they are
// records; and it is told numbers alone, also of an answer and of a refusal (`answer_number`, `put_records`).
ghost use Rattle.std.specs.Prelude.{◌≡◌};
ghost use Rattle.rules.specs.Records.{record_new, report, question, forget_record};
ghost use Rattle.records.specs.Model.{ValidRecords, replied, records_left};
ghost use Rattle.fitting_station.specs.RecordCalls.{records_at, records_in, answer_code, records_code};
ghost use Rattle.fitting_station.specs.RecordCalls.{StartsRecords, ResumesRecords, PerformsRecords};

use super::keepers::NOT_RESUMED;
use forms::Refusal;
use records::{Answer, Records, RecordsResult};

// What a report and a question return in place of 0.
pub const NOT_PERSISTENT: u64 = 1000;

pub const PERSISTENT: u64 = 1001;

// How many numbers the records have: five for each of 64.
pub const RECORD_WORDS: usize = 320;

pub type RecordWords = [u64; RECORD_WORDS];

// The number for what a call answers.
#[tactic(auto, unfolding(crate::specs::RecordCalls::answer_code))]
fn answer_number(r: Result<Answer, Refusal>) -> u64
    ensures { result ≡ answer_code r }
{
    match r {
        Ok(Answer::Done) => 0,
        Ok(Answer::Persistent) => PERSISTENT,
        Ok(Answer::NotPersistent) => NOT_PERSISTENT,
        Err(refusal) => refusal.into(),
    }
}

// .. of one that may change the records, whose number goes to the lent number; a refusal leaves that.
#[tactic(auto, unfolding(crate::specs::RecordCalls::answer_code))]
fn put_records(count: &mut usize, r: RecordsResult) -> u64
    ensures { (result ≡ answer_code (replied r)) × (records_at count.new ≡ records_left (records_at count.old) r) }
{
    match r {
        Ok((records, answer)) => {
            *count = records.count;
            answer_number(Ok(answer))
        }
        Err(refusal) => refusal.into(),
    }
}

// Begins without records, in numbers of any contents.
pub fn fl_records_start_parts(count: &mut usize, words: &RecordWords)
    ensures { StartsRecords count.new words.now }
{
    *count = Records::empty().count;
}

// Takes up the records that stand in the first numbers: 0, or 999 and no records where they would be more than 64.
pub fn fl_records_resume_parts(count: &mut usize, words: &RecordWords, kept: usize) -> u64
    ensures { ResumesRecords kept words.now result count.new }
{
    if Records::LIMIT < kept {
        *count = 0;
        return NOT_RESUMED;
    }
    *count = kept;
    0
}

// Records an operation with its masks and its threshold: 0, or the number of the refusal.
pub fn fl_records_record_parts(
    count: &mut usize,
    words: &mut RecordWords,
    id: u64,
    sent: u8,
    full: u8,
    threshold: u64,
) -> u64
    requires { ValidRecords (records_at count.old) words.old }
    ensures { PerformsRecords count.old words.old (record_new id sent full threshold (records_in count.old words.old)) result
        count.new words.new }
{
    let s = Records { count: *count };
    let r = s.record(words, id, sent, full, threshold);
    put_records(count, r)
}

// A site reports an operation persistent: whether it then counts as persistent, or the number of the refusal.
pub fn fl_records_report_parts(
    count: &mut usize,
    words: &mut RecordWords,
    id: u64,
    site: u64,
) -> u64
    requires { ValidRecords (records_at count.old) words.old }
    ensures { PerformsRecords count.old words.old (report id site (records_in count.old words.old)) result
        count.new words.new }
{
    let s = Records { count: *count };
    let r = s.report(words, id, site);
    put_records(count, r)
}

// Whether an operation counts as persistent, or the number of the refusal. Nothing changes.
pub fn fl_records_question_parts(count: &usize, words: &RecordWords, id: u64) -> u64
    requires { ValidRecords (records_at count.now) words.now }
    ensures { result ≡ records_code (question id (records_in count.now words.now)) }
{
    let s = Records { count: *count };
    answer_number(s.question(words, id))
}

// Forgets the record of an operation: 0, or the number of the refusal.
pub fn fl_records_forget_parts(count: &mut usize, words: &mut RecordWords, id: u64) -> u64
    requires { ValidRecords (records_at count.old) words.old }
    ensures { PerformsRecords count.old words.old (forget_record id (records_in count.old words.old)) result
        count.new words.new }
{
    let s = Records { count: *count };
    let r = s.forget(words, id);
    put_records(count, r)
}
