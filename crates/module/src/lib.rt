// The compact module: up to four sites that share one table of 128 entries. Every call names a slot; a slot above 3, and one that is not
// opened, is refused 14. A call requires the invariant, which `Module::new` establishes and every call keeps, and nothing else; a refused
// one leaves all that is lent as it was.
#![tactic(auto)]

ghost use Rattle.std.specs.Prelude.{◌≡◌, cond, eqb, ◌≤◌, ◌<◌, max, length};
ghost use Rattle.table.specs.Tables.{live_count};
ghost use Rattle.module.specs.Parts.{part_room};
ghost use Rattle.module.specs.Model.{slot_in};
ghost use Rattle.module.specs.Gather.{MayGather};
ghost use Rattle.module.specs.RoomLaws.{may_use};
ghost use Rattle.module.specs.LoanLaws.{again_in};
ghost use Rattle.module.specs.Calls.{Claims, refuses, slot_with, answered, Concludes, Lends, Settles, Turns};

use forms::{Refusal, ReplyForm, ReplyLine};
use numbers::{PART, gather, part_of, put_part};
use site::{CallResult, Site, refusal};

pub mod calls;
pub mod entries;
mod numbers;
pub mod poll;
pub mod start;

// A place for a site. It has a site's counters also while none is opened: fitting_module's `words_of` and `module_at` carry them, and a
// refused call leaves them; so `site` and `opened` are not one Option. That a site has at most 64 live operations, which `live`, `claim`,
// `claim_beside` and `promised_again` ask, is no invariant: fitting_module's `slot_at` makes a slot of whatever words C lends.
#[derive(Clone, Copy)]
pub struct Slot {
    pub site: Site,
    // whether the site is opened
    pub opened: bool,
    // how many entries it is promised
    pub promise: usize,
    // how many entry numbers stand in its part of the numbers: those of its live operations, and behind them free ones
    pub held: usize,
}

// A module by value. What the caller lends to each call of a slot: the buffer of its site's log, the rows of the table, the numbers of all
// entries, the words of its site's histories, and an array for the lists of the reply.
#[derive(Clone, Copy)]
pub struct Module {
    pub slots: [Slot; 4],
}

// What a call hands back: the module after it, and the reply.
#[derive(Clone, Copy)]
pub struct ModuleResult {
    pub after: Module,
    pub reply: ReplyLine,
}

// The slots after one of them was lent free numbers of its neighbours, and its part of the numbers as it was.
#[derive(Clone, Copy)]
struct Loan {
    slots: [Slot; 4],
    saved: [u8; PART],
}

// Whether a reply is a refusal.
fn is_refused(form: ReplyForm) -> bool
    ensures { result ≡ refuses form }
{
    matches!(form, ReplyForm::Refused(_))
}

impl Slot {
    // How many operations of its site are live.
    fn live(self) -> usize
        requires { live_count self.site.table ≤ part_room }
        ensures { result ≡ live_count self.site.table }
    {
        let table = self.site.table;
        table.finished + table.queue
    }

    // What it claims of the table: what its site has live, or what it is promised.
    fn claim(self) -> usize
        requires { live_count self.site.table ≤ part_room }
        ensures { result ≡ max (live_count self.site.table) self.promise }
    {
        self.live().max(self.promise)
    }

    // What slot j claims beside another slot: nothing, if it is this one.
    fn claim_beside(self, j: usize, slot: usize) -> usize
        requires { live_count self.site.table ≤ part_room }
        ensures { result ≡ cond (eqb j slot) 0 (max (live_count self.site.table) self.promise) }
    {
        if j == slot { 0 } else { self.claim() }
    }

    // The slot with the site that a call handed back.
    fn with(self, site: Site) -> Slot
        ensures { result ≡ slot_with site self.promise self.held }
    {
        Slot {
            site,
            opened: true,
            ..self
        }
    }

    // "Until its restoring ends, a cut or restarted site is promised as many as it had live, if more than 16; over further cuts the largest
    // number holds."
    fn promised_again(self) -> usize
        requires { live_count self.site.table ≤ part_room }
        ensures { result ≡ again_in self }
    {
        let most = Module::PROMISE.max(self.live());
        if self.opened && self.site.restoring {
            most.max(self.promise)
        } else {
            most
        }
    }
}

impl Module {
    // "carries up to four sites on 128 live entries"
    pub const SLOTS: usize = 4;

    pub const ENTRIES: usize = 128;
    // "is promised 16 and may use 64"
    pub const PROMISE: usize = 16;

    // Whether the slot has a site.
    fn is_open(&self, slot: usize) -> bool
        requires { length self.now.slots ≡ 4 }
        ensures { result ≡ (slot_in self.now.slots slot).opened }
    {
        slot < Module::SLOTS && self.slots[slot].opened
    }

    // How many entries a slot may use: 64, or what the others' claims leave of the table.
    fn may_use(self, slot: usize) -> usize
        requires { Claims self.slots slot }
        ensures { result ≡ may_use self.slots slot }
    {
        let [a, b, c, d] = self.slots;
        let others = a.claim_beside(0, slot)
            + b.claim_beside(1, slot)
            + c.claim_beside(2, slot)
            + d.claim_beside(3, slot);
        (Module::ENTRIES - others).min(Site::LIVE)
    }

    // Lends free numbers of the neighbours to a slot until it holds n.
    fn lend(self, numbers: &mut [u8], slot: usize, n: usize) -> Loan
        requires { MayGather self.slots numbers.old slot n }
        ensures { Lends self.slots numbers.old slot n result numbers.new }
    {
        let saved = part_of(numbers, slot);
        Loan {
            slots: gather(numbers, self.slots, slot, n),
            saved,
        }
    }

    // The module with the site that a call of a slot handed back.
    fn answer(mut slots: [Slot; 4], slot: usize, r: CallResult, promise: usize) -> ModuleResult
        requires { (slot < 4) × (length slots ≡ 4) }
        ensures { result ≡ answered slots slot r promise }
    {
        slots[slot] = Slot {
            site: r.site,
            opened: true,
            promise,
            held: slots[slot].held,
        };
        ModuleResult {
            after: Module { slots },
            reply: r.reply,
        }
    }

    // After a call of a slot to which nothing was lent; a refused one leaves the module.
    fn conclude(self, slot: usize, r: CallResult, promise: usize) -> ModuleResult
        requires { (slot < 4) × (length self.slots ≡ 4) }
        ensures { Concludes self slot r promise result }
    {
        if is_refused(r.reply.form) {
            return ModuleResult {
                after: self,
                reply: r.reply,
            };
        }
        Module::answer(self.slots, slot, r, promise)
    }

    // After a call with numbers that were lent: where it was refused, they are given back.
    fn settle(
        self,
        numbers: &mut [u8],
        slot: usize,
        loan: Loan,
        r: CallResult,
        promise: usize,
    ) -> ModuleResult
        requires { (slot < 4) × (length loan.slots ≡ 4) × (length numbers.old ≡ 256) }
        ensures { Settles self slot loan r promise numbers.old result numbers.new }
    {
        if is_refused(r.reply.form) {
            put_part(numbers, slot, loan.saved);
            return ModuleResult {
                after: self,
                reply: r.reply,
            };
        }
        Module::answer(loan.slots, slot, r, promise)
    }

    // A call that is refused before it comes to a site. Site and session have such a function too, each with a result of its own.
    fn refuse(self, q: Refusal) -> ModuleResult
        ensures { Turns self q result }
    {
        ModuleResult {
            after: self,
            reply: refusal(q),
        }
    }
}
