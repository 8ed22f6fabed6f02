// What a header must agree with before it lends anything.
ghost use Rattle.std.specs.Prelude.{◌≡◌, ◌+◌, ◌*◌, length};
ghost use Rattle.forms.specs.Limits.{update_limit, live_limit, reply_limit};
ghost use Rattle.history.specs.Words.{book_length};
ghost use Rattle.table.specs.Rows.{row_width};
ghost use Rattle.card.specs.Model.{counts_length};
ghost use Rattle.forms.specs.declared.ReplyLine.{ReplyLine};
ghost use Rattle.call_words.specs.Answers.{answer_words};
ghost use Rattle.fitting_ledger.specs.Counters.{counter_words};

// The version of the calls and of what is lent to them.
#[unsafe(no_mangle)]
pub extern "C" fn fl_version() -> u64
    ensures { result ≡ 4 }
{
    fitting_ledger::version::fl_version()
}

// The bytes of a state: its counters, its table's rows and the numbers of its histories, of eight bytes each, and the order of its entries.
#[unsafe(no_mangle)]
pub extern "C" fn fl_state_bytes() -> usize
    ensures { result ≡ 8 * (counter_words + live_limit * row_width + book_length) + live_limit }
{
    fitting_ledger::version::fl_state_bytes()
}

// The room that a line asks for its reply: what the longest has.
#[unsafe(no_mangle)]
pub extern "C" fn fl_reply_bytes() -> usize
    ensures { result ≡ reply_limit }
{
    fitting_ledger::version::fl_reply_bytes()
}

// How many numbers the answer of a call without text has, whatever it replies.
#[unsafe(no_mangle)]
pub extern "C" fn fl_answer_words() -> usize
    ensures { (r : ReplyLine) → length (answer_words r) ≡ result }
{
    fitting_ledger::version::fl_answer_words()
}

// How many numbers its lists may have: a finish names the values of each update, and operations that were live.
#[unsafe(no_mangle)]
pub extern "C" fn fl_number_words() -> usize
    ensures { result ≡ update_limit + live_limit }
{
    fitting_ledger::version::fl_number_words()
}

// How many counts a card has: inc, set and not of each history.
#[unsafe(no_mangle)]
pub extern "C" fn fl_card_words() -> usize
    ensures { result ≡ counts_length }
{
    fitting_ledger::version::fl_card_words()
}
