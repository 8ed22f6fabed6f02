// What a header must agree with before it lends anything.
ghost use Rattle.std.specs.Prelude.{◌≡◌, ◌+◌, ◌*◌, length};
ghost use Rattle.forms.specs.Limits.{update_limit, live_limit, reply_limit};
ghost use Rattle.history.specs.Words.{book_length};
ghost use Rattle.table.specs.Rows.{row_width};
ghost use Rattle.card.specs.Model.{counts_length};
ghost use Rattle.forms.specs.declared.ReplyLine.{ReplyLine};
ghost use Rattle.call_words.specs.Answers.{answer_words};
ghost use Rattle.fitting_ledger.specs.Counters.{counter_words};

use super::cards::CARD_WORDS;
use super::counters::COUNTERS;
use call_words::answer::ANSWER_WORDS;
use forms::limits::{HISTORIES, LIVE, REPLY_BYTES, UPDATES};
use history::book::WIDTH;
use table::rows::ROW;

// The version of the calls and of what is lent to them.
pub fn fl_version() -> u64
    ensures { result ≡ 4 }
{
    4
}

// The bytes of a state: its counters, its table's rows and the numbers of its histories, of eight bytes each, and the order of its entries.
pub fn fl_state_bytes() -> usize
    ensures { result ≡ 8 * (counter_words + live_limit * row_width + book_length) + live_limit }
{
    8 * (COUNTERS + LIVE * ROW + HISTORIES * WIDTH) + LIVE
}

// The room that a line asks for its reply: what the longest has.
pub fn fl_reply_bytes() -> usize
    ensures { result ≡ reply_limit }
{
    REPLY_BYTES
}

// How many numbers the answer of a call without text has, whatever it replies.
pub fn fl_answer_words() -> usize
    ensures { (r : ReplyLine) → length (answer_words r) ≡ result }
{
    ANSWER_WORDS
}

// How many numbers its lists may have: a finish names the values of each update, and operations that were live.
pub fn fl_number_words() -> usize
    ensures { result ≡ update_limit + live_limit }
{
    UPDATES + LIVE
}

// How many counts a card has: inc, set and not of each history.
pub fn fl_card_words() -> usize
    ensures { result ≡ counts_length }
{
    CARD_WORDS
}
