// Calls about records: how many there are stands in a lent number, the records in the first numbers of a lent array, five each: id, masks
// of the sites sent to, of the full copies and of the reports, threshold.
ghost use Rattle.std.specs.Prelude.{◌≡◌};
ghost use Rattle.rules.specs.Records.{record_new, report, question, forget_record};
ghost use Rattle.records.specs.Model.{ValidRecords};
ghost use Rattle.fitting_station.specs.RecordCalls.{records_at, records_in, records_code};
ghost use Rattle.fitting_station.specs.RecordCalls.{StartsRecords, ResumesRecords, PerformsRecords};

use fitting_station::record_calls::RecordWords;

// Begins without records, in numbers of any contents.
#[unsafe(no_mangle)]
pub extern "C" fn fl_records_start_parts(count: &mut usize, words: &RecordWords)
    ensures { StartsRecords count.new words.now }
{
    fitting_station::record_calls::fl_records_start_parts(count, words)
}

// Takes up the records that stand in the first numbers: 0, or 999 and no records where they would be more than 64.
#[unsafe(no_mangle)]
pub extern "C" fn fl_records_resume_parts(
    count: &mut usize,
    words: &RecordWords,
    kept: usize,
) -> u64
    ensures { ResumesRecords kept words.now result count.new }
{
    fitting_station::record_calls::fl_records_resume_parts(count, words, kept)
}

// Records an operation with its masks and its threshold: 0, or the number of the refusal.
#[unsafe(no_mangle)]
pub extern "C" fn fl_records_record_parts(
    count: &mut usize,
    words: &mut RecordWords,
    id: u64,
    sent: u8,
    full: u8,
    threshold: u64,
) -> u64
    requires { ValidRecords (records_at count.old) words.old }
    ensures { PerformsRecords count.old words.old (record_new id sent full threshold (records_in count.old words.old)) result
        count.new words.new }
{
    fitting_station::record_calls::fl_records_record_parts(count, words, id, sent, full, threshold)
}

// A site reports an operation persistent: whether it then counts as persistent, or the number of the refusal.
#[unsafe(no_mangle)]
pub extern "C" fn fl_records_report_parts(
    count: &mut usize,
    words: &mut RecordWords,
    id: u64,
    site: u64,
) -> u64
    requires { ValidRecords (records_at count.old) words.old }
    ensures { PerformsRecords count.old words.old (report id site (records_in count.old words.old)) result
        count.new words.new }
{
    fitting_station::record_calls::fl_records_report_parts(count, words, id, site)
}

// Whether an operation counts as persistent, or the number of the refusal. Nothing changes.
#[unsafe(no_mangle)]
pub extern "C" fn fl_records_question_parts(count: &usize, words: &RecordWords, id: u64) -> u64
    requires { ValidRecords (records_at count.now) words.now }
    ensures { result ≡ records_code (question id (records_in count.now words.now)) }
{
    fitting_station::record_calls::fl_records_question_parts(count, words, id)
}

// Forgets the record of an operation: 0, or the number of the refusal.
#[unsafe(no_mangle)]
pub extern "C" fn fl_records_forget_parts(
    count: &mut usize,
    words: &mut RecordWords,
    id: u64,
) -> u64
    requires { ValidRecords (records_at count.old) words.old }
    ensures { PerformsRecords count.old words.old (forget_record id (records_in count.old words.old)) result
        count.new words.new }
{
    fitting_station::record_calls::fl_records_forget_parts(count, words, id)
}
