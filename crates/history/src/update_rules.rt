// The rules of 01's table, one function for each column, on numbers.
ghost use Rattle.std.specs.Prelude.{◌≡◌, true, ◌&&◌, ℕ, ◌*◌, ◌<◌};
ghost use Rattle.forms.specs.Limits.{part_limit};
ghost use Rattle.forms.specs.Decimal.{top};
ghost use Rattle.forms.specs.declared.Rule.TheVariants.{Unk};
ghost use Rattle.rules.specs.Rules.{rule_of, logged_as, may_run, strong, ordered, version_after, operand_fits, replaced, profile_after};

use forms::limits::PARTS;
use forms::{Rule, Version};

// The profile with one part replaced: the operand is part * 256 + byte.
fn replace_part(profile: u64, operand: u64) -> u64
    requires { operand < 256 * part_limit }
    ensures { result ≡ replaced profile operand }
{
    let shift = (operand >> 8) * 8;
    let byte = operand & 255;
    (profile & !(255u64 << shift)) | (byte << shift)
}

// Whether an update with version `u` may run in a history at version `c`.
pub fn may_run(rule: Rule, c: Version, u: Version) -> bool
    ensures { result ≡ may_run rule c.0 u.0 }
{
    match rule {
        Rule::Inc => c.0 < u.0 && u.0 - c.0 == 1,
        Rule::Set => c.0 < u.0,
        Rule::Not => u.0 == c.0,
        Rule::Unk => c.0 < u64::MAX,
    }
}

// `not` is weak, the other rules are strong.
pub fn is_strong(rule: Rule) -> bool
    ensures { result ≡ strong rule }
{
    rule != Rule::Not
}

// All rules but `unk` are ordered.
pub(crate) fn is_ordered(rule: Rule) -> bool
    ensures { result ≡ ordered rule }
{
    rule != Rule::Unk
}

// Whether the operand `o` is in its rule's range, and the version `u` of an `unk` is 0. A set takes every number.
pub(crate) fn operand_fits(rule: Rule, u: u64, o: u64) -> bool
    ensures { result ≡ operand_fits rule u o }
{
    match rule {
        Rule::Inc => o < PARTS * 256,
        Rule::Set => true,
        Rule::Not => o == 0,
        Rule::Unk => o < PARTS * 256 && u == 0,
    }
}

// The rule that the log gives: `unk` is recorded as `inc`.
pub(crate) fn logged_as(rule: Rule) -> Rule
    ensures { result ≡ rule_of (logged_as rule) }
{
    match rule {
        Rule::Unk => Rule::Inc,
        _ => rule,
    }
}

// The version after an update with version `u` in a history at version `c`.
pub(crate) fn version_after(rule: Rule, c: Version, u: Version) -> Version
    requires { rule ≡ Unk → c.0 < top }
    ensures { result.0 ≡ version_after rule c.0 u.0 }
{
    match rule {
        Rule::Inc | Rule::Set => u,
        Rule::Not => c,
        Rule::Unk => Version(c.0 + 1),
    }
}

// Whether a rule is strong and ordered.
pub(crate) fn orders(rule: Rule) -> bool
    ensures { result ≡ (strong rule && ordered rule) }
{
    is_strong(rule) && is_ordered(rule)
}

// The profile after an update.
pub(crate) fn profile_after(rule: Rule, operand: u64, profile: u64) -> u64
    requires { (u : ℕ) × (operand_fits rule u operand ≡ true) }
    ensures { result ≡ profile_after rule operand profile }
{
    match rule {
        Rule::Inc | Rule::Unk => replace_part(profile, operand),
        Rule::Set => operand,
        Rule::Not => profile,
    }
}
