// Schedule messages written from a plan and the plan before it.
#![tactic(auto)]

ghost use Rattle.std.specs.Prelude.{◌≡◌, ℕ, ◌≤◌, ◌<◌};
ghost use Rattle.schedule.specs.Coded.{shown_of};
ghost use Rattle.plan.specs.Coded.{plan_of};
ghost use Rattle.plan_slots.specs.Coded.{planned_of};
ghost use Rattle.sender_message.specs.Coded.{shown_in};
ghost use Rattle.sender.specs.Paper.{planned, write_schedule};
ghost use Rattle.sender.specs.Coded.{sending_of};
ghost use Rattle.sender.specs.Inner.{shown_by};

use plan::{Fault, Plan};
use plan_slots::Planned;
use refusals::Refusal;
use schedule::{Description, Slot};
use sizes::{MESSAGE, SLOTS};

// What is told of slot i, counted from 0, by what the plans say of it.
#[tactic(auto, unfolding(crate::specs::Inner::shown_by), using(std::proofs::lemmas::Bool::Decides::nat_tests))]
fn tell(said: Planned, i: usize) -> Slot
    requires { i < 48 }
    ensures { shown_of result ≡ shown_by (planned_of said) i }
{
    match said.kind {
        1 => Slot {
            new: true,
            description: Description::Advised,
        },
        2 if i + 1 == said.lowest as usize => Slot {
            new: said.fresh,
            description: Description::First(said.low),
        },
        2 => Slot {
            new: said.fresh,
            description: Description::Repeat(said.lowest),
        },
        _ => Slot {
            new: false,
            description: Description::Optional,
        },
    }
}

// What is told of each slot up to the count.
fn telling(current: Plan, previous: Plan) -> [Slot; SLOTS]
    requires { current.count ≤ 48 }
    ensures { (i : ℕ) → i < current.count → shown_in result i ≡ planned (plan_of current) (plan_of previous) i }
{
    let mut slots = [Slot {
        new: false,
        description: Description::Optional,
    }; SLOTS];
    let all = plan_slots::all_planned(current, previous);
    for (i, said) in all[..current.count].iter().enumerate() {
        slots[i] = tell(*said, i);
    }
    slots
}

// Writes the schedule message of a plan (GSM 04.12 3.5), beside the plan before it, which says what pages are new, and gives the octets
// that it uses of the 88. `begin` is the slot in which the schedule begins, counted from 1. Refuses by 15, by what refuses a plan, by 35,
// 21 and 34 (docs/FORMATS.md), and leaves the output as it is then.
#[tactic(auto, using(crate::proofs::Cases::plans_refused, refusals::proofs::Inverse::number_of_positive))]
pub fn write_schedule(
    current: Plan,
    previous: Plan,
    begin: usize,
    out: &mut [u8],
) -> Result<usize, Fault>
    ensures { sending_of result out.new ≡ write_schedule (plan_of current) (plan_of previous) begin out.old }
{
    if out.len() != MESSAGE {
        return Err(Fault::from(Refusal::OutputLength));
    }
    plan::plans_answer(current, previous)?;
    let slots = telling(current, previous);
    let used = sender_message::write_message(slots, current.count, begin, out)?;
    Ok(used)
}
