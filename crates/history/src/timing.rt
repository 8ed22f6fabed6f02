// "The test of an update against its history's version says from now on one of now, later or never."
ghost use Rattle.std.specs.Prelude.{◌≡◌};
ghost use Rattle.rules.specs.Rules.{may_later, timing, is_never};

use super::update_rules::may_run;
use super::{History, Item};
use forms::{Rule, Timing, Version};

// Whether an update with version `u` may run, not in a history at version `c`, but at a later one.
pub fn may_later(rule: Rule, c: Version, u: Version) -> bool
    ensures { result ≡ may_later rule c.0 u.0 }
{
    match rule {
        Rule::Inc => c.0 < u.0 && 1 < u.0 - c.0,
        Rule::Not => c.0 < u.0,
        Rule::Set | Rule::Unk => false,
    }
}

// When an update with version `u` may run in a history at version `c`.
pub fn timing(rule: Rule, c: Version, u: Version) -> Timing
    ensures { result ≡ timing rule c.0 u.0 }
{
    if may_run(rule, c, u) {
        Timing::Now
    } else if may_later(rule, c, u) {
        Timing::Later
    } else {
        Timing::Never
    }
}

// Whether an item never runs in its history.
pub fn is_never(h: History, x: Item) -> bool
    ensures { result ≡ is_never (timing x.rule h.version.0 x.version.0) }
{
    timing(x.rule, h.version, x.version) == Timing::Never
}
