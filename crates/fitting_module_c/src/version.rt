// What a header must agree with before it lends anything.
ghost use Rattle.std.specs.Prelude.{◌≡◌, ◌+◌, ◌*◌, length};
ghost use Rattle.forms.specs.Limits.{update_limit, live_limit, reply_limit};
ghost use Rattle.forms.specs.declared.ReplyLine.{ReplyLine};
ghost use Rattle.history.specs.Words.{book_length};
ghost use Rattle.table.specs.Rows.{row_width};
ghost use Rattle.module.specs.Parts.{part_room, table_room};
ghost use Rattle.call_words.specs.Answers.{answer_words};
ghost use Rattle.fitting_module.specs.Words.{slot_words};

// The version of the calls and of what is lent to them.
#[unsafe(no_mangle)]
pub extern "C" fn fm_version() -> u64
    ensures { result ≡ 2 }
{
    fitting_module::version::fm_version()
}

// The bytes of a state: the slots' counters, the table's rows and the numbers of the histories, of eight bytes each, and the numbers of its
// entries.
#[unsafe(no_mangle)]
pub extern "C" fn fm_state_bytes() -> usize
    ensures { result ≡ 8 * (4 * slot_words + table_room * row_width + 4 * book_length) + 4 * part_room }
{
    fitting_module::version::fm_state_bytes()
}

// The room that a line asks for its reply: what the longest has.
#[unsafe(no_mangle)]
pub extern "C" fn fm_reply_bytes() -> usize
    ensures { result ≡ reply_limit }
{
    fitting_module::version::fm_reply_bytes()
}

// How many numbers the answer of a call without text has, whatever it replies.
#[unsafe(no_mangle)]
pub extern "C" fn fm_answer_words() -> usize
    ensures { (r : ReplyLine) → length (answer_words r) ≡ result }
{
    fitting_module::version::fm_answer_words()
}

// How many numbers its lists may have: a finish names the values of each update, and operations that were live.
#[unsafe(no_mangle)]
pub extern "C" fn fm_number_words() -> usize
    ensures { result ≡ update_limit + live_limit }
{
    fitting_module::version::fm_number_words()
}
