// What the current plan and the previous one say, judged and found once for any number of messages.
#![tactic(auto)]

ghost use Rattle.std.specs.Prelude.{◌≡◌};
ghost use Rattle.plan.specs.Coded.{plan_of};
ghost use Rattle.checker_plans.specs.Inner.{beside as beside_them};
ghost use Rattle.checker_plans.specs.Coded.{plans_of};

use plan::{Fault, Plan};
use plan_slots::Planned;
use sizes::SLOTS;

// What two good plans say, of which the current one has slots: its count and what is said of each slot.
// Stays a count beside an array: there is no heap here, and a plan's slots are 1 to 48.
#[derive(Clone, Copy)]
pub struct Said {
    pub count: usize,
    pub said: [Planned; SLOTS],
}

// What the current plan and the previous one say, for any number of messages; or why they are refused, and the entry that is named.
#[tactic(auto, using(crate::proofs::Answers::refused_unsaid, refusals::proofs::Inverse::number_of_positive))]
pub fn beside(current: Plan, previous: Plan) -> Result<Said, Fault>
    ensures { plans_of result ≡ beside_them (plan_of current) (plan_of previous) }
{
    plan::plans_answer(current, previous)?;
    Ok(Said {
        count: current.count,
        said: plan_slots::all_planned(current, previous),
    })
}
