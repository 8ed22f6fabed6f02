// The checks 2 to 5 of the updates of an operation, as asked or as a did line reports them.
ghost use Rattle.std.specs.Prelude.{◌≡◌, List, [], ◌∷◌, map, ◌≤◌, length};
ghost use Rattle.forms.specs.Forms.{Update, Change};
ghost use Rattle.forms.specs.Held.{as_update, as_asked, as_change};
ghost use Rattle.forms.specs.Limits.{update_limit};
ghost use Rattle.rules.specs.Checks.{history_twice, updates_refusal, changes_refusal};
ghost use Rattle.rules.specs.Rules.{rule_of};
ghost use Rattle.history.specs.Asking.{verdict_of, change_update, HoldsUpdates, HoldsChanges};

use super::Verdict;
use super::update_rules::operand_fits;
use forms::limits::UPDATES;
use forms::{Asked, AskedHeld, Done, DoneHeld, DoneRule, Refusal, Rule};

// Whether two updates are in one history.
fn is_twice(asked: &[Asked]) -> bool
    ensures { result ≡ history_twice (map (λ (a : Asked). a.history) asked.now) }
{
    for (i, a) in asked.iter().enumerate() {
        if asked[..i].iter().any(|b| a.history == b.history) {
            return true;
        }
    }
    false
}

// The checks 3 to 5 of the only update of an operation, in a site of n histories: beside `several_refusal` for speed, as most operations
// have one update.
fn one_refusal(n: u64, a: Asked) -> Verdict
    ensures { result ≡ verdict_of (updates_refusal n (as_update a ∷ [])) }
{
    if n <= a.history {
        return Err(Refusal::NoSuchHistory);
    }
    if !operand_fits(a.rule, a.version.0, a.operand) {
        return Err(Refusal::OperandRange);
    }
    Ok(())
}

// The checks 3 to 5 of the updates of an operation of at most four, in a site of n histories.
fn several_refusal(n: u64, asked: &[Asked]) -> Verdict
    requires { (1 ≤ length asked.now) × (length asked.now ≤ update_limit) }
    ensures { result ≡ verdict_of (updates_refusal n (map as_update asked.now)) }
{
    if asked.iter().any(|a| n <= a.history) {
        return Err(Refusal::NoSuchHistory);
    }
    if is_twice(asked) {
        return Err(Refusal::HistoryTwice);
    }
    if asked
        .iter()
        .any(|a| !operand_fits(a.rule, a.version.0, a.operand))
    {
        return Err(Refusal::OperandRange);
    }
    Ok(())
}

// The checks 2 to 5 of the updates of an operation, in a site of n histories. What is held past the count is not looked at.
pub fn asked_refusal(n: u64, held: AskedHeld) -> Verdict
    requires { length held.first ≡ update_limit }
    ensures { (us : List Update) → HoldsUpdates held us → result ≡ verdict_of (updates_refusal n us) }
{
    if held.count == 0 || UPDATES < held.count {
        return Err(Refusal::WrongCount);
    }
    if held.count == 1 {
        return one_refusal(n, held.first[0]);
    }
    several_refusal(n, &held.first[..held.count])
}

// The rule of an update that was done, as one that is asked for. Both types are those of forms, so that no From of theirs can stand here;
// and it is said by the `rule_of` of the rules, which stand above forms.
pub(crate) fn rule_of(rule: DoneRule) -> Rule
    ensures { result ≡ rule_of rule }
{
    match rule {
        DoneRule::DidInc => Rule::Inc,
        DoneRule::DidSet => Rule::Set,
        DoneRule::DidNot => Rule::Not,
    }
}

// The update that a change reports.
fn asked_of(d: Done) -> Asked
    ensures { result ≡ as_asked (change_update (as_change d)) }
{
    Asked {
        rule: rule_of(d.rule),
        history: d.history,
        version: d.version,
        operand: d.operand,
    }
}

// The checks 2 to 5 of the changes of a did line, in a site of n histories: those of the updates that it reports. What is held past the
// count is not looked at.
pub fn done_refusal(n: u64, held: DoneHeld) -> Verdict
    ensures { (xs : List Change) → HoldsChanges held xs → result ≡ verdict_of (changes_refusal n xs) }
{
    let asked = AskedHeld {
        count: held.count,
        first: held.first.map(asked_of),
    };
    asked_refusal(n, asked)
}
