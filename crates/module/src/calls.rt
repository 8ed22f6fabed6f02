// The calls of a slot that take no entries: its site is lent the numbers of its live operations. What they do is alike, but each is lent
// other arrays to write, and says so in its signature and in its contract: a function over a closure for the site's call would ask and say
// the same of the closure, for each call anew. What is alike behind the call is `conclude`.
ghost use Rattle.std.specs.Prelude.{ℕ, List};
ghost use Rattle.rules.specs.Calls.{Call};
ghost use Rattle.compact.specs.Module.{Move};
ghost use Rattle.site.specs.Model.{received, lent};
ghost use Rattle.module.specs.Model.{ValidWith, Moves};

use super::numbers::PART;
use super::{Module, ModuleResult};
use forms::{LogNumber, Refusal, ReplyNumbers};
use history::book::BookWords;

impl Module {
    // "Finish replies log number, values after in the operation's order, ids made ready", and ids overtaken.
    pub fn finish(
        mut self,
        slot: usize,
        log: &mut [u8],
        rows: &mut [u64],
        numbers: &mut [u8],
        book: &mut BookWords,
        lists: &mut ReplyNumbers,
        id: u64,
    ) -> ModuleResult
        requires { ValidWith self slot (received log.old rows.old numbers.old book.old) }
        ensures { Moves self (Move.At slot (Call.Finish id)) (lent log.old rows.old numbers.old book.old lists.old) result
            (lent log.new rows.new numbers.new book.new lists.new) }
    {
        if !self.is_open(slot) {
            return self.refuse(Refusal::OutOfTurn);
        }
        let own = self.slots[slot];
        let a = PART * slot;
        let e = a + own.live();
        let r = own
            .site
            .finish(log, rows, &mut numbers[a..e], book, lists, id);
        self.slots[slot] = own.with(r.site);
        ModuleResult {
            after: self,
            reply: r.reply,
        }
    }

    // "Only a future operation can be withdrawn"; the reply names the histories that became dry.
    pub fn withdraw(
        self,
        slot: usize,
        log: &[u8],
        rows: &[u64],
        numbers: &mut [u8],
        book: &mut BookWords,
        lists: &mut ReplyNumbers,
        id: u64,
    ) -> ModuleResult
        requires { ValidWith self slot (received log.now rows.now numbers.old book.old) }
        ensures { Moves self (Move.At slot (Call.Withdraw id)) (lent log.now rows.now numbers.old book.old lists.old) result
            (lent log.now rows.now numbers.new book.new lists.new) }
    {
        if !self.is_open(slot) {
            return self.refuse(Refusal::OutOfTurn);
        }
        let own = self.slots[slot];
        let a = PART * slot;
        let e = a + own.live();
        let r = own
            .site
            .withdraw(log, rows, &mut numbers[a..e], book, lists, id);
        self.conclude(slot, r, own.promise)
    }

    // "Persistent n" makes log numbers up to n persistent.
    pub fn persistent(
        self,
        slot: usize,
        log: &[u8],
        rows: &[u64],
        numbers: &mut [u8],
        book: &mut BookWords,
        lists: &mut ReplyNumbers,
        n: LogNumber,
    ) -> ModuleResult
        requires { ValidWith self slot (received log.now rows.now numbers.old book.old) }
        ensures { Moves self (Move.At slot (Call.Persistent n.0)) (lent log.now rows.now numbers.old book.old lists.old) result
            (lent log.now rows.now numbers.new book.new lists.new) }
    {
        if !self.is_open(slot) {
            return self.refuse(Refusal::OutOfTurn);
        }
        let own = self.slots[slot];
        let a = PART * slot;
        let e = a + own.live();
        let r = own
            .site
            .persistent(log, rows, &mut numbers[a..e], book, lists, n);
        self.conclude(slot, r, own.promise)
    }

    // "A stable call with N above the mark writes a line `(stable N)` to the log".
    pub fn stable(
        self,
        slot: usize,
        log: &mut [u8],
        rows: &[u64],
        numbers: &[u8],
        book: &mut BookWords,
        lists: &mut ReplyNumbers,
        n: LogNumber,
    ) -> ModuleResult
        requires { ValidWith self slot (received log.old rows.now numbers.now book.old) }
        ensures { Moves self (Move.At slot (Call.Stable n.0)) (lent log.old rows.now numbers.now book.old lists.old) result
            (lent log.new rows.now numbers.now book.new lists.new) }
    {
        if !self.is_open(slot) {
            return self.refuse(Refusal::OutOfTurn);
        }
        let own = self.slots[slot];
        let a = PART * slot;
        let e = a + own.live();
        let r = own.site.stable(log, rows, &numbers[a..e], book, lists, n);
        self.conclude(slot, r, own.promise)
    }

    // "Show: history, version, persistent, stable, place, profile."
    pub fn show(
        self,
        slot: usize,
        log: &[u8],
        rows: &[u64],
        numbers: &[u8],
        book: &BookWords,
        h: u64,
    ) -> ModuleResult
        requires { ValidWith self slot (received log.now rows.now numbers.now book.now) }
        ensures { (ns : List ℕ) →
            Moves self (Move.At slot (Call.Show h)) (lent log.now rows.now numbers.now book.now ns) result
            (lent log.now rows.now numbers.now book.now ns) }
    {
        if !self.is_open(slot) {
            return self.refuse(Refusal::OutOfTurn);
        }
        let own = self.slots[slot];
        let a = PART * slot;
        let e = a + own.live();
        let r = own.site.show(log, rows, &numbers[a..e], book, h);
        self.conclude(slot, r, own.promise)
    }

    // "Ending restoring drops and names those still waiting, in order of delivery": the slot is promised 16 again.
    pub fn end(
        self,
        slot: usize,
        log: &[u8],
        rows: &[u64],
        numbers: &[u8],
        book: &BookWords,
        lists: &mut ReplyNumbers,
    ) -> ModuleResult
        requires { ValidWith self slot (received log.now rows.now numbers.now book.now) }
        ensures { Moves self (Move.At slot Call.End) (lent log.now rows.now numbers.now book.now lists.old) result
            (lent log.now rows.now numbers.now book.now lists.new) }
    {
        if !self.is_open(slot) {
            return self.refuse(Refusal::OutOfTurn);
        }
        let own = self.slots[slot];
        let a = PART * slot;
        let e = a + own.live();
        let r = own.site.end(log, rows, &numbers[a..e], book, lists);
        self.conclude(slot, r, Module::PROMISE)
    }
}
