// The line forms, the lowest part: the values that the lines of document 01 carry, and the refusals; `reader` reads lines and `writer`
// writes them. How each is printed and what each line means is said in specs/.
#![tactic(auto)]

ghost use Rattle.std.specs.Prelude.{◌≡◌, ◌≤◌, length, take};

pub mod base;
pub mod bounds;
mod lengths;
pub mod limits;
pub mod line;
mod listed;
mod piece;
pub mod reader;
pub mod standing;
mod text;
mod tokens;
mod updates;
pub mod writer;

use limits::{HISTORIES, LIVE, UPDATES};

// The rule of an update that is asked for.
#[derive(Clone, Copy, PartialEq, Eq)]
pub enum Rule {
    Inc,
    Set,
    Not,
    Unk,
}

// The rule of an update that was done: the words of a log are inc, set and not, and `unk` is logged as `inc`.
#[derive(Clone, Copy, PartialEq, Eq)]
pub enum DoneRule {
    DidInc,
    DidSet,
    DidNot,
}

// 02 (b): "The test of an update against its history's version says from now on one of now, later or never."
#[derive(Clone, Copy, PartialEq, Eq)]
pub enum Timing {
    Now,
    Later,
    Never,
}

// The version of a history: a counter.
#[derive(Clone, Copy, PartialEq, Eq)]
pub struct Version(pub u64);

// The place of a history: how many updates were done in it.
#[derive(Clone, Copy, PartialEq, Eq)]
pub struct Place(pub u64);

// The log number of an operation: its position among the operations that the site has done.
#[derive(Clone, Copy, PartialEq, Eq)]
pub struct LogNumber(pub u64);

// An update that is asked for, (RULE H U O).
#[derive(Clone, Copy, PartialEq, Eq)]
pub struct Asked {
    pub rule: Rule,
    pub history: u64,
    pub version: Version,
    pub operand: u64,
}

// An update that was done, (RULE H V P O): the version and the place after it.
#[derive(Clone, Copy, PartialEq, Eq)]
pub struct Done {
    pub rule: DoneRule,
    pub history: u64,
    pub version: Version,
    pub place: Place,
    pub operand: u64,
}

// What is held of a line that lists things: how many it has, and the first N of them, with blanks in the places behind them. It is an array
// with a count beside it, since there is no heap; and the count goes on past N, so that no slice tells it.
#[derive(Clone, Copy, PartialEq, Eq)]
pub struct Held<T, const N: usize> {
    pub count: usize,
    pub first: [T; N],
}

impl<T, const N: usize> Held<T, N> {
    // Those that the line has, where all of them are held.
    pub(crate) fn within(&self) -> &[T]
        requires { self.now.count ≤ length self.now.first }
        ensures { result.now ≡ take self.now.count self.now.first }
    {
        let first: &[T] = &self.first;
        &first[..self.count]
    }
}

// The first four updates of an add line.
pub type AskedHeld = Held<Asked, UPDATES>;

// The first four updates of a did line.
pub type DoneHeld = Held<Done, UPDATES>;

// A did line: the operation's id, and what is held of its updates.
#[derive(Clone, Copy, PartialEq, Eq)]
pub struct DidLine {
    pub id: u64,
    pub held: DoneHeld,
}

// A history of a base line, (H V P O): its number, and its version, place and profile.
#[derive(Clone, Copy, PartialEq, Eq)]
pub struct BaseHistory {
    pub history: u64,
    pub version: Version,
    pub place: Place,
    pub profile: u64,
}

// The first sixteen histories of a base line.
pub type BaseHeld = Held<BaseHistory, HISTORIES>;

// A base line, `(base N (H V P O)...)`: its N, and what is held of its histories.
#[derive(Clone, Copy, PartialEq, Eq)]
pub struct BaseLine {
    pub number: LogNumber,
    pub held: BaseHeld,
}

// Why a call is refused. The papers' numbers are given by `number_of` in specs/Refusals.antt.
#[derive(Clone, Copy, PartialEq, Eq)]
pub enum Refusal {
    Unreadable,
    WrongCount,
    NoSuchHistory,
    HistoryTwice,
    OperandRange,
    NothingOrders,
    IdPending,
    AlreadyDone,
    ReadOvertaken,
    TableFull,
    WrongState,
    NoRoom,
    AboveLimit,
    OutOfTurn,
    BadLog,
    HighestVersion,
    WrongThreshold,
    NotSent,
    Conflict,
    NoLengthFits,
    WindowRange,
}

// Room for the lists of a reply, one behind the other: at most 4 profiles and 64 ids, or 16 histories and 16 histories.
pub type ReplyNumbers = [u64; UPDATES + LIVE];

// A history as `show` gives it.
#[derive(Clone, Copy, PartialEq, Eq)]
pub struct Shown {
    pub history: u64,
    pub version: Version,
    pub persistent: Version,
    pub stable: Version,
    pub place: Place,
    pub profile: u64,
}

// Which form a reply has, with its single numbers. Its lists stand beside it. Of the second list of a finish the first `overtaken`
// ids are those overtaken, and the others those made ready.
#[derive(Clone, Copy, PartialEq, Eq)]
pub enum ReplyForm {
    Refused(Refusal),
    Opened,
    Added,
    Finished { number: LogNumber, overtaken: usize },
    Withdrawn,
    Persisted,
    Stabilised,
    Shows(Shown),
    Restarted { lines: u64, used: u64 },
    Redone { ran: u64, examined: u64 },
    Ended,
}

// A reply: its form, and how many numbers the lists have that the form has, in their printed order. The numbers stand in an array that
// is lent, those of the second list behind those of the first. `outcome_of` in specs/Held.antt says what it means.
#[derive(Clone, Copy, PartialEq, Eq)]
pub struct ReplyLine {
    pub form: ReplyForm,
    pub first: usize,
    pub second: usize,
}
