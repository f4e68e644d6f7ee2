// Schedule messages checked against a plan and the plan before it.
#![tactic(auto)]

ghost use Rattle.std.specs.Prelude.{◌≡◌, ◌<◌, map, position};
ghost use Rattle.laws.specs.Upto.{each};
ghost use Rattle.plan.specs.Coded.{plan_of};
ghost use Rattle.plan_slots.specs.Coded.{planned_of};
ghost use Rattle.checker_plans.specs.Coded.{plans_of};
ghost use Rattle.checker.specs.Paper.{check};
ghost use Rattle.checker.specs.Inner.{is_broken, compared, slots_beside};
ghost use Rattle.checker.specs.Coded.{rule_from, rule_by, checked_of};

use checker_plans::Said;
use plan::{Fault, Plan};
use plan_slots::Planned;
use refusals::Refusal;
use sizes::SLOTS;

// Why a message isn't true, and the slot that 40 names, or whose entry 36 and 37 name (02 No. 1), counted from 1; with other refusals, and
// where End differs, the slot is 0.
#[derive(Clone, Copy, Debug, PartialEq, Eq)]
pub struct SlotFault {
    pub refusal: Refusal,
    pub slot: usize,
}

// A refusal that names no slot.
impl From<Refusal> for SlotFault {
    ghost from_gives = { λ refusal fault. fault ≡ record { refusal = refusal; slot = 0 } };

    fn from(refusal: Refusal) -> SlotFault {
        SlotFault { refusal, slot: 0 }
    }
}

// Plans that are refused: the slot is the one whose entry is named.
impl From<Fault> for SlotFault {
    ghost from_gives = { λ plans fault. fault ≡ record { refusal = plans.refusal; slot = plans.entry } };

    fn from(plans: Fault) -> SlotFault {
        SlotFault {
            refusal: plans.refusal,
            slot: plans.entry as usize,
        }
    }
}

// Which rule fails first at slot i, counted from 0, by the place of its description and what the plans say of it; 0 for none, and
// past the count.
// Stays a number: check_slots and, for C, cb_check_slots lend their verdicts as octets.
fn judge(said: Planned, message: &[u8], at: usize, count: usize, i: usize) -> u8
    requires { i < 48 }
    ensures { result ≡ rule_from said message.now at count i }
{
    if i >= count {
        return 0;
    }
    let slot = schedule::shown(message, i, at);
    match checker_slots::failing_rule(said, i + 1, slot) {
        Some(rule) => u8::from(rule),
        None => 0,
    }
}

// Judges each slot, by the places of the descriptions and what the plans say of all.
fn judge_each(
    all: &[Planned; SLOTS],
    message: &[u8],
    places: &[u8; SLOTS],
    count: usize,
    verdicts: &mut [u8; SLOTS],
)
    ensures { verdicts.new ≡ each (rule_by all.now message.now places.now count) 48 }
{
    for (i, said) in all.iter().enumerate() {
        verdicts[i] = judge(*said, message, places[i] as usize, count, i);
    }
}

// The place, counted from 0, of the first slot that breaks a rule.
fn first_untrue(verdicts: &[u8; SLOTS]) -> Option<usize>
    ensures { result ≡ position is_broken verdicts.now }
{
    verdicts.iter().position(|verdict| *verdict != 0)
}

// Holds a message, of which some octets are received, beside what good plans say.
#[tactic(auto, using(crate::proofs::Comparing::message_refused, refusals::proofs::Inverse::number_of_positive))]
fn compare(
    plans: &Said,
    message: &[u8],
    received: usize,
    verdicts: &mut [u8; SLOTS],
) -> Result<(), SlotFault>
    ensures { record { checked = checked_of result; verdicts = verdicts.new } ≡ compared plans.now.count (map planned_of plans.now.said) message.now received verdicts.old }
{
    let placed = schedule_places::read_places(message, received)?;
    let end = placed.span.end;
    if end != plans.count {
        return Err(Refusal::Untrue.into());
    }
    judge_each(&plans.said, message, &placed.places, end, verdicts);
    match first_untrue(verdicts) {
        Some(i) => Err(SlotFault {
            refusal: Refusal::Untrue,
            slot: i + 1,
        }),
        None => Ok(()),
    }
}

// Checks a message, of which some octets are received, by what the plans say, and leaves which rule each slot breaks. Where slots aren't
// judged one by one, their verdicts are left as they were.
#[tactic(auto, using(crate::proofs::Answers::length_refused))]
pub fn check_slots(
    plans: Result<Said, Fault>,
    message: &[u8],
    received: usize,
    verdicts: &mut [u8],
) -> Result<(), SlotFault>
    ensures { record { checked = checked_of result; verdicts = verdicts.new } ≡ slots_beside (plans_of plans) message.now received verdicts.old }
{
    let Some(verdicts) = verdicts.as_mut_array::<SLOTS>() else {
        return Err(Refusal::OutputLength.into());
    };
    let said = plans?;
    compare(&said, message, received, verdicts)
}

// Checks a message, of which some octets are received, beside the current plan and the previous one.
pub fn check_schedule(
    current: Plan,
    previous: Plan,
    message: &[u8],
    received: usize,
) -> Result<(), SlotFault>
    ensures { checked_of result ≡ check (plan_of current) (plan_of previous) message.now received }
{
    let plans = checker_plans::beside(current, previous);
    let mut verdicts = [0u8; SLOTS];
    check_slots(plans, message, received, &mut verdicts)
}
