// A line in, a reply out, and how much of a slot's log is in use.
ghost use Rattle.std.specs.Prelude.{ℕ, ◌≤◌, ◌≡◌, Some, List, [], length};
ghost use Rattle.forms.specs.declared.DidLine.{DidLine};
ghost use Rattle.forms.specs.declared.reader.CommandForm.{CommandForm};
ghost use Rattle.rules.specs.Calls.{Call};
ghost use Rattle.compact.specs.Module.{Move};
ghost use Rattle.site.specs.Model.{Lent, received, lent};
ghost use Rattle.module.specs.Model.{ValidWith, Moves, RefusedIn};
ghost use Rattle.fitting_module.specs.Model.{ValidState};
ghost use Rattle.fitting_module.specs.Words.{words};
ghost use Rattle.fitting_module.specs.Lines.{line_move, did_in, Obeys, ObeysForm, AnswersLine};
ghost use Rattle.fitting_module.specs.Used.{UsedIn};

use super::words::{SlotWords, module_at, put_module};
use call_words::text::put_reply;
use forms::limits::{LIVE, REPLY_BYTES, UPDATES};
use forms::reader::{CommandForm, read_command};
use forms::{LogNumber, Refusal, ReplyNumbers};
use history::book::BookWords;
use module::{Module, ModuleResult};
use site::refusal;
use table::rows::ROW;

// The rows of the table that the slots share.
pub type TableRows = [u64; Module::ENTRIES * ROW];

// The numbers of its entries, in a part of 64 places for each slot.
pub type EntryNumbers = [u8; 256];

// A line that is refused before it comes to a slot, so that no call of the module says it.
fn refused(m: Module, q: Refusal) -> ModuleResult
    ensures { (w : Lent) → RefusedIn m w q result w }
{
    ModuleResult {
        after: m,
        reply: refusal(q),
    }
}

// Redoes the did line of a line `(redo ..)`.
fn redo(
    m: Module,
    slot: usize,
    log: &mut [u8],
    rows: &mut [u64],
    numbers: &mut [u8],
    book: &mut BookWords,
    line: &[u8],
) -> ModuleResult
    requires valid_with { ValidWith m slot (received log.old rows.old numbers.old book.old) }
    requires in_bounds { 7 ≤ length line.now }
    ensures { (ns : List ℕ) → Moves m (Move.At slot (Call.Redo (did_in line.now))) (lent log.old rows.old numbers.old book.old ns) result
        (lent log.new rows.new numbers.new book.new ns) }
{
    let e = line.len() - 1;
    m.redo(slot, log, rows, numbers, book, &line[6..e])
}

// What a form asks of a slot.
fn call(
    m: Module,
    slot: usize,
    log: &mut [u8],
    rows: &mut [u64],
    numbers: &mut [u8],
    book: &mut BookWords,
    lists: &mut ReplyNumbers,
    line: &[u8],
    c: CommandForm,
) -> ModuleResult
    requires valid_with { ValidWith m slot (received log.old rows.old numbers.old book.old) }
    requires in_bounds { (d : DidLine) → c ≡ CommandForm.Redo d → 7 ≤ length line.now }
    ensures { ObeysForm slot m (lent log.old rows.old numbers.old book.old lists.old) line.now (Some c) result
        (lent log.new rows.new numbers.new book.new lists.new) }
{
    match c {
        CommandForm::SiteOf(n) => m.open(slot, log, book, n),
        CommandForm::Add(i, asked) => m.add(slot, log, rows, numbers, book, lists, i, asked),
        CommandForm::Finish(i) => m.finish(slot, log, rows, numbers, book, lists, i),
        CommandForm::Withdraw(i) => m.withdraw(slot, log, rows, numbers, book, lists, i),
        CommandForm::Persistent(n) => m.persistent(
            slot,
            log,
            rows,
            numbers,
            book,
            lists,
            LogNumber(n),
        ),
        CommandForm::Stable(n) => m.stable(slot, log, rows, numbers, book, lists, LogNumber(n)),
        CommandForm::Show(h) => m.show(slot, log, rows, numbers, book, h),
        CommandForm::Cut(k) => m.cut(slot, log, rows, numbers, book, k),
        CommandForm::Redo(_) => redo(m, slot, log, rows, numbers, book, line),
        CommandForm::End => m.end(slot, log, rows, numbers, book, lists),
    }
}

// A line, without its end, for a slot.
fn obey(
    m: Module,
    slot: usize,
    log: &mut [u8],
    rows: &mut [u64],
    numbers: &mut [u8],
    book: &mut BookWords,
    lists: &mut ReplyNumbers,
    line: &[u8],
) -> ModuleResult
    requires { ValidWith m slot (received log.old rows.old numbers.old book.old) }
    ensures { Obeys slot m (line_move slot (length log.old) line.now) (lent log.old rows.old numbers.old book.old lists.old) result
        (lent log.new rows.new numbers.new book.new lists.new) }
{
    let Some(c) = read_command(line) else {
        return refused(m, Refusal::Unreadable);
    };
    call(m, slot, log, rows, numbers, book, lists, line, c)
}

// Obeys a line for a slot, given without its end, and writes its reply, with its end: the bytes of the reply. Where `out` has less room
// than the longest reply nothing has happened, and the room needed is returned: more than there is.
pub fn fm_line_parts(
    first: &mut SlotWords,
    second: &mut SlotWords,
    third: &mut SlotWords,
    fourth: &mut SlotWords,
    log: &mut [u8],
    rows: &mut TableRows,
    numbers: &mut EntryNumbers,
    book: &mut BookWords,
    slot: usize,
    line: &[u8],
    out: &mut [u8],
) -> usize
    requires { ValidState (words first.old second.old third.old fourth.old) slot (received log.old rows.old numbers.old book.old) }
    ensures { AnswersLine slot (words first.old second.old third.old fourth.old) (lent log.old rows.old numbers.old book.old []) line.now
        result
        (words first.new second.new third.new fourth.new) (lent log.new rows.new numbers.new book.new []) out.old out.new }
{
    if out.len() < REPLY_BYTES {
        return REPLY_BYTES;
    }
    let mut lists = [0u64; UPDATES + LIVE];
    let m = module_at(first, second, third, fourth);
    let r = obey(m, slot, log, rows, numbers, book, &mut lists, line);
    put_module(first, second, third, fourth, r.after);
    put_reply(out, r.reply, &lists)
}

// How many bytes of a slot's log are in use: 0 where the slot is not open, and above the last slot.
pub fn fm_log_used_parts(
    first: &SlotWords,
    second: &SlotWords,
    third: &SlotWords,
    fourth: &SlotWords,
    log: &[u8],
    rows: &TableRows,
    numbers: &EntryNumbers,
    book: &BookWords,
    slot: usize,
) -> usize
    requires { ValidState (words first.now second.now third.now fourth.now) slot (received log.now rows.now numbers.now book.now) }
    ensures { UsedIn (words first.now second.now third.now fourth.now) slot (lent log.now rows.now numbers.now book.now []) result }
{
    let m = module_at(first, second, third, fourth);
    if slot >= Module::SLOTS || !m.slots[slot].opened {
        return 0;
    }
    m.slots[slot].site.used
}
