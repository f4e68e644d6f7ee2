// Which rule of truth a slot of a schedule message breaks, if any, by what two plans say of it.
#![tactic(auto)]

ghost use Rattle.std.specs.Prelude.{◌≡◌};
ghost use Rattle.schedule.specs.Coded.{told_of, shown_of};
ghost use Rattle.plan_slots.specs.Coded.{planned_of};
ghost use Rattle.checker_slots.specs.Paper.{leads, repeats, may_tell, new_for, rule_for, failing_rule};
ghost use Rattle.checker_slots.specs.Coded.{rule_of, failing_of};

use plan_slots::Planned;
use schedule::{Description, Slot};

// The rules of what is told of a slot (01, Truthful), in the order of its list. The variants have the numbers of
// their places too, so that the compiler makes the octet of a rule without a table.
#[derive(Clone, Copy, Debug, PartialEq, Eq)]
pub enum Rule {
    // the lowest slot with a page
    Lowest = 1,
    // a later slot with that page
    Later = 2,
    // a slot planned optional
    Optional = 3,
    // a slot planned advised
    Advised = 4,
    // the new bit beside a description
    NewBit = 5,
}

// A rule's place in the list, as callers are given it (docs/FORMATS.md).
impl From<Rule> for u8 {
    ghost from_gives = { λ rule n. n ≡ rule_of rule };

    fn from(rule: Rule) -> u8 {
        match rule {
            Rule::Lowest => 1,
            Rule::Later => 2,
            Rule::Optional => 3,
            Rule::Advised => 4,
            Rule::NewBit => 5,
        }
    }
}

// Whether a slot is the lowest with its page.
fn leads(planned: Planned, number: usize) -> bool
    ensures { result ≡ leads (planned_of planned) number }
{
    planned.kind == 2 && planned.lowest as usize == number
}

// Whether a slot is a later one with its page.
fn repeats(planned: Planned, number: usize) -> bool
    ensures { result ≡ repeats (planned_of planned) number }
{
    planned.kind == 2 && planned.lowest as usize != number
}

// Whether a description may be told of a slot.
fn may_tell(planned: Planned, number: usize, description: Description) -> bool
    ensures { result ≡ may_tell (planned_of planned) number (told_of description) }
{
    match description {
        Description::First(low) => leads(planned, number) && low == planned.low,
        Description::Repeat(n) => repeats(planned, number) && n == planned.lowest,
        Description::Optional => planned.kind == 0 || repeats(planned, number),
        Description::Advised => planned.kind == 1 || planned.kind == 2,
    }
}

// The new bit that belongs to a description.
fn new_for(planned: Planned, description: Description) -> bool
    ensures { result ≡ new_for (planned_of planned) (told_of description) }
{
    match description {
        Description::First(_) | Description::Repeat(_) => planned.fresh,
        Description::Optional => false,
        Description::Advised => true,
    }
}

// The rule of what may be told of a slot.
fn rule_for(planned: Planned, number: usize) -> Rule
    ensures { rule_of result ≡ rule_for (planned_of planned) number }
{
    if leads(planned, number) {
        return Rule::Lowest;
    }
    if repeats(planned, number) {
        return Rule::Later;
    }
    if planned.kind == 0 {
        return Rule::Optional;
    }
    Rule::Advised
}

// The first rule that fails at a slot, by its number and what the plans say of it; none where it is told truly.
pub fn failing_rule(planned: Planned, number: usize, slot: Slot) -> Option<Rule>
    ensures { failing_of result ≡ failing_rule (planned_of planned) number (shown_of slot) }
{
    let new = slot.new;
    let description = slot.description;
    if !may_tell(planned, number, description) {
        return Some(rule_for(planned, number));
    }
    let right = new_for(planned, description);
    if new != right {
        return Some(Rule::NewBit);
    }
    None
}
