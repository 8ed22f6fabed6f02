// Calls about records. The first numbers of an array are the records, five each: id, masks of the sites sent to, of the full copies and of
// the reports, threshold. A call returns a refusal's number, or 1,000 more than a number.
ghost use Rattle.std.specs.Prelude.{◌≡◌, ◌≤◌, Ok};
ghost use Rattle.forms.specs.Limits.{record_limit};
ghost use Rattle.rules.specs.Records.{record_new, report, question, forget_record};
ghost use Rattle.records.specs.declared.Records.{Records};
ghost use Rattle.records.specs.declared.Answer.{Answer};
ghost use Rattle.c_api.specs.RecordCalls.{records_in, are_records, answer_number, result_number, asked_number, RepliesRecords};

use records::{Answer, Records, RecordsResult};

// More records than 64, or fewer numbers than those of 64.
const NO_RECORDS: u64 = 999;
// The numbers of 64 records.
const NUMBERS: usize = 320;

// Whether numbers can be so many records.
#[tactic(auto, unfolding(crate::specs::RecordCalls::are_records))]
fn are_records(words: &[u64], count: usize) -> bool
    ensures { result ≡ are_records count words.now }
{
    count <= Records::LIMIT && NUMBERS <= words.len()
}

// The number for an answer, with so many records after the call.
#[tactic(auto, unfolding(crate::specs::RecordCalls::answer_number))]
fn answer_number(a: Answer, count: usize) -> u64
    requires { count ≤ record_limit }
    ensures { result ≡ answer_number a count }
{
    match a {
        Answer::Done => count as u64 + 1000,
        Answer::Persistent => 1001,
        Answer::NotPersistent => 1000,
    }
}

// The number for the records after a call and its answer, or of its refusal.
fn result_number(r: RecordsResult) -> u64
    requires { (p : Records × Answer) → r ≡ Ok p → p.0.count ≤ record_limit }
    ensures { result ≡ result_number r }
{
    match r {
        Ok((s, a)) => answer_number(a, s.count),
        Err(q) => u64::from(q),
    }
}

// Records an operation with its masks and its threshold: 1,000 more than the records after it.
pub fn records_record(
    words: &mut [u64],
    count: usize,
    id: u64,
    sent: u8,
    full: u8,
    threshold: u64,
) -> u64
    ensures { RepliesRecords count words.old (record_new id sent full threshold (records_in count words.old)) result
        words.new }
{
    if !are_records(words, count) {
        return NO_RECORDS;
    }
    let r = Records { count }.record(words, id, sent, full, threshold);
    result_number(r)
}

// A site reports an operation persistent: 1,001 if it then counts as persistent, else 1,000.
pub fn records_report(words: &mut [u64], count: usize, id: u64, site: u64) -> u64
    ensures { RepliesRecords count words.old (report id site (records_in count words.old)) result
        words.new }
{
    if !are_records(words, count) {
        return NO_RECORDS;
    }
    let r = Records { count }.report(words, id, site);
    result_number(r)
}

// Whether an operation counts as persistent: 1,001 if it does, else 1,000.
pub fn records_question(words: &[u64], count: usize, id: u64) -> u64
    ensures { result ≡ asked_number count words.now (question id (records_in count words.now)) }
{
    if !are_records(words, count) {
        return NO_RECORDS;
    }
    let s = Records { count };
    match s.question(words, id) {
        Ok(a) => answer_number(a, count),
        Err(q) => u64::from(q),
    }
}

// Forgets the record of an operation: 1,000 more than the records after it.
pub fn records_forget(words: &mut [u64], count: usize, id: u64) -> u64
    ensures { RepliesRecords count words.old (forget_record id (records_in count words.old)) result
        words.new }
{
    if !are_records(words, count) {
        return NO_RECORDS;
    }
    let r = Records { count }.forget(words, id);
    result_number(r)
}
