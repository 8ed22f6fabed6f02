// Replies of every form.
ghost use Rattle.std.specs.Prelude.{◌≤◌, length};
ghost use Rattle.forms.specs.Limits.{live_limit};

use super::again::say_front;
use forms::limits::{LIVE, REPLY_BYTES, UPDATES};
use forms::{LogNumber, Place, Refusal, ReplyForm, Shown, Version};

// The greatest number that a line can have.
const MOST: u64 = u64::MAX;

// Writes a reply and prints it.
fn say_reply(rt: &impl Print, form: ReplyForm, xs: &[u64], ys: &[u64])
    requires { (length xs.now ≤ live_limit) × (length ys.now ≤ live_limit) }
{
    let mut buf = [b'.'; REPLY_BYTES];
    let w = forms::writer::write_reply(&mut buf, 0, form, xs, ys);
    say_front(rt, w, &buf);
}

// A reply without lists.
fn say_plain(rt: &impl Print, form: ReplyForm) {
    say_reply(rt, form, &[], &[]);
}

// What finish replies: of its ids the first are overtaken, as many as `overtaken` says, and the rest made ready.
fn say_finished(rt: &impl Print, number: u64, values: &[u64], overtaken: usize, ids: &[u64])
    requires { (length values.now ≤ live_limit) × (length ids.now ≤ live_limit) }
{
    let form = ReplyForm::Finished {
        number: LogNumber(number),
        overtaken,
    };
    say_reply(rt, form, values, ids);
}

// The refusals in the order of their numbers.
pub fn say_refusals(rt: &impl Print) {
    for q in [
        Refusal::Unreadable,
        Refusal::WrongCount,
        Refusal::NoSuchHistory,
        Refusal::HistoryTwice,
        Refusal::OperandRange,
        Refusal::NothingOrders,
        Refusal::IdPending,
        Refusal::AlreadyDone,
        Refusal::ReadOvertaken,
        Refusal::TableFull,
        Refusal::WrongState,
        Refusal::NoRoom,
        Refusal::AboveLimit,
        Refusal::OutOfTurn,
        Refusal::BadLog,
        Refusal::HighestVersion,
        Refusal::WrongThreshold,
        Refusal::NotSent,
        Refusal::Conflict,
        Refusal::NoLengthFits,
        Refusal::WindowRange,
    ] {
        say_plain(rt, ReplyForm::Refused(q));
    }
}

// What show gives of a history.
fn say_shown(
    rt: &impl Print,
    history: u64,
    version: u64,
    persistent: u64,
    stable: u64,
    place: u64,
    profile: u64,
) {
    say_plain(
        rt,
        ReplyForm::Shows(Shown {
            history,
            version: Version(version),
            persistent: Version(persistent),
            stable: Version(stable),
            place: Place(place),
            profile,
        }),
    );
}

// The replies of the paper's session, and those of withdraw and stable.
pub fn say_paper(rt: &impl Print) {
    say_plain(rt, ReplyForm::Opened);
    say_reply(rt, ReplyForm::Added, &[5], &[]);
    say_reply(rt, ReplyForm::Added, &[], &[]);
    say_finished(rt, 1, &[65536, 0], 0, &[6]);
    say_finished(rt, 2, &[1000], 0, &[]);
    say_reply(rt, ReplyForm::Persisted, &[0], &[0]);
    say_shown(rt, 0, 1, 1, 0, 1, 65536);
    say_plain(rt, ReplyForm::Restarted { lines: 1, used: 46 });
    say_shown(rt, 1, 0, 0, 0, 1, 0);
    say_plain(
        rt,
        ReplyForm::Redone {
            ran: 1,
            examined: 1,
        },
    );
    say_plain(rt, ReplyForm::Ended);
    say_shown(rt, 1, 4, 0, 0, 2, 1000);
    say_reply(rt, ReplyForm::Withdrawn, &[0, 1], &[]);
    say_reply(rt, ReplyForm::Stabilised, &[0, 1], &[]);
    say_reply(rt, ReplyForm::Ended, &[6, 5], &[]);
}

// Every form with the greatest numbers and with the longest lists.
pub fn say_edges(rt: &impl Print) {
    let few = [MOST; UPDATES];
    let all = [MOST; LIVE];
    let two = [MOST, 0];
    say_reply(rt, ReplyForm::Added, &all, &two);
    say_finished(rt, MOST, &few, 0, &all);
    say_finished(rt, MOST, &all, 4, &all);
    for overtaken in [2, 1, 0, 3] {
        say_finished(rt, 3, &two, overtaken, &two);
    }
    say_reply(rt, ReplyForm::Persisted, &two, &all);
    for form in [
        ReplyForm::Persisted,
        ReplyForm::Withdrawn,
        ReplyForm::Stabilised,
    ] {
        say_plain(rt, form);
    }
    say_shown(rt, MOST, MOST, MOST, MOST, MOST, MOST);
    say_plain(
        rt,
        ReplyForm::Restarted {
            lines: MOST,
            used: MOST,
        },
    );
    say_plain(
        rt,
        ReplyForm::Redone {
            ran: MOST,
            examined: MOST,
        },
    );
    say_plain(
        rt,
        ReplyForm::Redone {
            ran: 0,
            examined: 1,
        },
    );
    say_reply(rt, ReplyForm::Ended, &all, &two);
}
