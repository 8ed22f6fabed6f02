// Calls about records. The first numbers of an array are the records, five each: id, masks of the sites sent to, of the full copies and of
// the reports, threshold. A call returns a refusal's number, or 1,000 more than a number.
ghost use Rattle.std.specs.Prelude.{◌≡◌};
ghost use Rattle.rules.specs.Records.{record_new, report, question, forget_record};
ghost use Rattle.c_api.specs.RecordCalls.{records_in, asked_number, RepliesRecords};

// Records an operation with its masks and its threshold: 1,000 more than the records after it.
#[unsafe(no_mangle)]
pub extern "C" fn records_record(
    words: &mut [u64],
    count: usize,
    id: u64,
    sent: u8,
    full: u8,
    threshold: u64,
) -> u64
    ensures { RepliesRecords count words.old (record_new id sent full threshold (records_in count words.old)) result
        words.new }
{
    c_api::record_calls::records_record(words, count, id, sent, full, threshold)
}

// A site reports an operation persistent: 1,001 if it then counts as persistent, else 1,000.
#[unsafe(no_mangle)]
pub extern "C" fn records_report(words: &mut [u64], count: usize, id: u64, site: u64) -> u64
    ensures { RepliesRecords count words.old (report id site (records_in count words.old)) result
        words.new }
{
    c_api::record_calls::records_report(words, count, id, site)
}

// Whether an operation counts as persistent: 1,001 if it does, else 1,000.
#[unsafe(no_mangle)]
pub extern "C" fn records_question(words: &[u64], count: usize, id: u64) -> u64
    ensures { result ≡ asked_number count words.now (question id (records_in count words.now)) }
{
    c_api::record_calls::records_question(words, count, id)
}

// Forgets the record of an operation: 1,000 more than the records after it.
#[unsafe(no_mangle)]
pub extern "C" fn records_forget(words: &mut [u64], count: usize, id: u64) -> u64
    ensures { RepliesRecords count words.old (forget_record id (records_in count words.old)) result
        words.new }
{
    c_api::record_calls::records_forget(words, count, id)
}
