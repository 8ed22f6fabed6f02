// What a header must agree with before it lends anything.
ghost use Rattle.std.specs.Prelude.{◌≡◌, ◌+◌, ◌*◌, length};
ghost use Rattle.forms.specs.Limits.{update_limit, live_limit, reply_limit};
ghost use Rattle.forms.specs.declared.ReplyLine.{ReplyLine};
ghost use Rattle.history.specs.Words.{book_length};
ghost use Rattle.table.specs.Rows.{row_width};
ghost use Rattle.module.specs.Parts.{part_room, table_room};
ghost use Rattle.call_words.specs.Answers.{answer_words};
ghost use Rattle.fitting_module.specs.Words.{slot_words};

use super::words::SLOT_WORDS;
use call_words::answer::ANSWER_WORDS;
use forms::limits::{HISTORIES, LIVE, REPLY_BYTES, UPDATES};
use history::book::WIDTH;
use module::Module;
use table::rows::ROW;

// The version of the calls and of what is lent to them.
pub fn fm_version() -> u64
    ensures { result ≡ 2 }
{
    2
}

// The bytes of a state: the slots' counters, the table's rows and the numbers of the histories, of eight bytes each, and the numbers of its
// entries.
pub fn fm_state_bytes() -> usize
    ensures { result ≡ 8 * (4 * slot_words + table_room * row_width + 4 * book_length) + 4 * part_room }
{
    let histories = Module::SLOTS * HISTORIES * WIDTH;
    8 * (Module::SLOTS * SLOT_WORDS + Module::ENTRIES * ROW + histories) + Module::SLOTS * LIVE
}

// The room that a line asks for its reply: what the longest has.
pub fn fm_reply_bytes() -> usize
    ensures { result ≡ reply_limit }
{
    REPLY_BYTES
}

// How many numbers the answer of a call without text has, whatever it replies.
pub fn fm_answer_words() -> usize
    ensures { (r : ReplyLine) → length (answer_words r) ≡ result }
{
    ANSWER_WORDS
}

// How many numbers its lists may have: a finish names the values of each update, and operations that were live.
pub fn fm_number_words() -> usize
    ensures { result ≡ update_limit + live_limit }
{
    UPDATES + LIVE
}
