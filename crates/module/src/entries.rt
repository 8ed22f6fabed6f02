// The calls of a slot that take entries: its site is lent as many numbers as it may use of those that are free, and where the call is
// refused they are given back.
ghost use Rattle.std.specs.Prelude.{ℕ, List, length};
ghost use Rattle.rules.specs.Calls.{Call};
ghost use Rattle.compact.specs.Module.{Move};
ghost use Rattle.site.specs.Model.{lent, received};
ghost use Rattle.site.specs.Trim.{updates_held};
ghost use Rattle.module.specs.Model.{ValidWith, ValidAnew, ValidSome, Moves, MovesAnew};

use super::numbers::PART;
use super::{Module, ModuleResult};
use forms::reader::read_did;
use forms::{AskedHeld, Refusal, ReplyNumbers};
use history::book::BookWords;
use site::Site;
use site::bounds::bound_asked;

impl Module {
    // "A history has a profile, a version and a place, all 0 when opened." No entry is taken.
    pub fn open(self, slot: usize, log: &mut [u8], book: &mut BookWords, n: u64) -> ModuleResult
        requires { ValidSome self slot log.old book.old }
        ensures { (rows numbers ns : List ℕ) → Moves self (Move.Open slot n (length log.old))
            (lent log.old rows numbers book.old ns) result (lent log.new rows numbers book.new ns) }
    {
        if slot >= Module::SLOTS || self.is_open(slot) {
            return self.refuse(Refusal::OutOfTurn);
        }
        let r = Site::open_log(log, book, n);
        self.conclude(slot, r, Module::PROMISE)
    }

    // "Restart takes the first K bytes": whatever site the slot had is replaced, in this buffer or another.
    pub fn restart(
        self,
        slot: usize,
        log: &[u8],
        rows: &mut [u64],
        numbers: &mut [u8],
        book: &mut BookWords,
        k: usize,
    ) -> ModuleResult
        requires { ValidAnew self slot (received log.now rows.old numbers.old book.old) }
        ensures { (ns : List ℕ) →
            MovesAnew self (Move.Restart slot log.now k) (lent log.now rows.old numbers.old book.old ns) result
            (lent log.now rows.new numbers.new book.new ns) }
    {
        if slot >= Module::SLOTS {
            return self.refuse(Refusal::OutOfTurn);
        }
        let own = self.slots[slot];
        let n = self.may_use(slot);
        let loan = self.lend(numbers, slot, n);
        let a = PART * slot;
        let e = a + n;
        let r = Site::restart_into(log, rows, &numbers[a..e], book, k);
        self.settle(numbers, slot, loan, r, own.promised_again())
    }

    // A supply cut that leaves the first k bytes of the log, and a restart from them.
    pub fn cut(
        self,
        slot: usize,
        log: &[u8],
        rows: &mut [u64],
        numbers: &mut [u8],
        book: &mut BookWords,
        k: u64,
    ) -> ModuleResult
        requires { ValidWith self slot (received log.now rows.old numbers.old book.old) }
        ensures { (ns : List ℕ) → Moves self (Move.At slot (Call.Cut k (length log.now)))
            (lent log.now rows.old numbers.old book.old ns) result (lent log.now rows.new numbers.new book.new ns) }
    {
        if !self.is_open(slot) {
            return self.refuse(Refusal::OutOfTurn);
        }
        let own = self.slots[slot];
        let n = self.may_use(slot);
        let loan = self.lend(numbers, slot, n);
        let a = PART * slot;
        let e = a + n;
        let r = own.site.cut(log, rows, &numbers[a..e], book, k);
        self.settle(numbers, slot, loan, r, own.promised_again())
    }

    // "An added operation is future." It is tried with those that wait.
    pub fn add(
        mut self,
        slot: usize,
        log: &[u8],
        rows: &mut [u64],
        numbers: &mut [u8],
        book: &mut BookWords,
        lists: &mut ReplyNumbers,
        id: u64,
        asked: AskedHeld,
    ) -> ModuleResult
        requires { ValidWith self slot (received log.now rows.old numbers.old book.old) }
        ensures { Moves self (Move.At slot (Call.Add id (updates_held asked))) (lent log.now rows.old numbers.old book.old lists.old) result
            (lent log.now rows.new numbers.new book.new lists.new) }
    {
        if !self.is_open(slot) {
            bound_asked(asked);
            return self.refuse(Refusal::OutOfTurn);
        }
        let own = self.slots[slot];
        let n = (own.live() + 1).min(self.may_use(slot));
        let a = PART * slot;
        let e = a + n;
        if n <= own.held {
            let r = own
                .site
                .add(log, rows, &numbers[a..e], book, lists, id, asked);
            self.slots[slot] = own.with(r.site);
            return ModuleResult {
                after: self,
                reply: r.reply,
            };
        }
        let loan = self.lend(numbers, slot, n);
        let r = own
            .site
            .add(log, rows, &numbers[a..e], book, lists, id, asked);
        self.settle(numbers, slot, loan, r, own.promise)
    }

    // "Redo takes a did line without its end."
    pub fn redo(
        self,
        slot: usize,
        log: &mut [u8],
        rows: &mut [u64],
        numbers: &mut [u8],
        book: &mut BookWords,
        line: &[u8],
    ) -> ModuleResult
        requires { ValidWith self slot (received log.old rows.old numbers.old book.old) }
        ensures { (ns : List ℕ) →
            Moves self (Move.At slot (Call.Redo line.now)) (lent log.old rows.old numbers.old book.old ns) result
            (lent log.new rows.new numbers.new book.new ns) }
    {
        if !self.is_open(slot) {
            return match read_did(line) {
                Some(_) => self.refuse(Refusal::OutOfTurn),
                None => self.refuse(Refusal::Unreadable),
            };
        }
        let own = self.slots[slot];
        let n = (own.live() + 1).min(self.may_use(slot));
        let loan = self.lend(numbers, slot, n);
        let a = PART * slot;
        let e = a + n;
        let r = own.site.redo(log, rows, &mut numbers[a..e], book, line);
        self.settle(numbers, slot, loan, r, own.promise)
    }
}
