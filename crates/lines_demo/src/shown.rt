// What a line holds, as it is printed.
use forms::reader::CommandForm;
use forms::{Asked, AskedHeld, DidLine, Done, DoneRule, Rule};
use std::fmt;

// A value of the forms that displays.
#[derive(Clone, Copy)]
pub struct Shown<T>(pub T);

impl fmt::Display for Shown<Rule> {
    fn fmt<W: fmt::Write>(&self, f: &mut fmt::Formatter<W>) -> fmt::Result {
        f.write_str(match self.0 {
            Rule::Inc => "inc",
            Rule::Set => "set",
            Rule::Not => "not",
            Rule::Unk => "unk",
        })
    }
}

impl fmt::Display for Shown<DoneRule> {
    fn fmt<W: fmt::Write>(&self, f: &mut fmt::Formatter<W>) -> fmt::Result {
        f.write_str(match self.0 {
            DoneRule::DidInc => "inc",
            DoneRule::DidSet => "set",
            DoneRule::DidNot => "not",
        })
    }
}

impl fmt::Display for Shown<Asked> {
    fn fmt<W: fmt::Write>(&self, f: &mut fmt::Formatter<W>) -> fmt::Result {
        let a = self.0;
        write!(
            f,
            " {} {} {} {}",
            Shown(a.rule),
            a.history,
            a.version.0,
            a.operand
        )
    }
}

impl fmt::Display for Shown<Done> {
    fn fmt<W: fmt::Write>(&self, f: &mut fmt::Formatter<W>) -> fmt::Result {
        let d = self.0;
        write!(
            f,
            " {} {} {} {} {}",
            Shown(d.rule),
            d.history,
            d.version.0,
            d.place.0,
            d.operand
        )
    }
}

// The number of updates, and the first four places.
impl fmt::Display for Shown<AskedHeld> {
    fn fmt<W: fmt::Write>(&self, f: &mut fmt::Formatter<W>) -> fmt::Result {
        let h = self.0;
        write!(f, " of {}", h.count)?;
        for a in h.first {
            write!(f, "{}", Shown(a))?;
        }
        Ok(())
    }
}

impl fmt::Display for Shown<DidLine> {
    fn fmt<W: fmt::Write>(&self, f: &mut fmt::Formatter<W>) -> fmt::Result {
        let h = self.0.held;
        write!(f, " did {} of {}", self.0.id, h.count)?;
        for d in h.first {
            write!(f, "{}", Shown(d))?;
        }
        Ok(())
    }
}

// A form, with what it holds.
impl fmt::Display for Shown<CommandForm> {
    fn fmt<W: fmt::Write>(&self, f: &mut fmt::Formatter<W>) -> fmt::Result {
        match self.0 {
            CommandForm::SiteOf(n) => write!(f, "site {n}"),
            CommandForm::Add(i, asked) => write!(f, "add {i}{}", Shown(asked)),
            CommandForm::Finish(i) => write!(f, "finish {i}"),
            CommandForm::Withdraw(i) => write!(f, "withdraw {i}"),
            CommandForm::Persistent(n) => write!(f, "persistent {n}"),
            CommandForm::Stable(n) => write!(f, "stable {n}"),
            CommandForm::Show(h) => write!(f, "show {h}"),
            CommandForm::Cut(k) => write!(f, "cut {k}"),
            CommandForm::Redo(did) => write!(f, "redo{}", Shown(did)),
            CommandForm::End => write!(f, "end"),
        }
    }
}
