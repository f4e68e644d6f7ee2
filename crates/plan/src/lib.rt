// Plans held by value, and whether they are good.
#![tactic(auto)]

ghost use Rattle.std.specs.Prelude.{◌≡◌, ◌≤◌, length};
ghost use Rattle.refusals.specs.Number.{number_of};
ghost use Rattle.plan.specs.Paper.{empty, bad, fault_of, plan_answer, plans_answer};
ghost use Rattle.plan.specs.Inner.{entries_answer};
ghost use Rattle.plan.specs.Coded.{entry_of, entries_of, plan_of, verdict_of};

use page::{MessageId, Serial};
use refusals::Refusal;
use sizes::SLOTS;

// A slot as planned (docs/FORMATS.md): kind 0 for optional, 1 for advised, 2 for a page.
// Stays a number: a kind over 2 is a value that a plan can have and that `plan_answer` refuses by 36.
#[derive(Clone, Copy)]
pub struct Entry {
    pub kind: u8,
    pub parameter: u8,
    pub serial: Serial,
    pub id: MessageId,
}

// The slots as planned; entries past the count mean nothing.
// Stays a count beside an array: there is no heap here, and a count over 48 is a value that `plan_answer` refuses by 32.
#[derive(Clone, Copy)]
pub struct Plan {
    pub count: usize,
    pub entries: [Entry; SLOTS],
}

// Why plans are refused, and the number of the entry that 36 and 37 name (02 No. 1), counted from 1; with other refusals that is 0.
#[derive(Clone, Copy, Debug, PartialEq, Eq)]
pub struct Fault {
    pub refusal: Refusal,
    pub entry: u8,
}

// A refusal that names no entry.
impl From<Refusal> for Fault {
    ghost from_gives = { λ refusal fault. fault ≡ record { refusal = refusal; entry = 0 } };

    fn from(refusal: Refusal) -> Fault {
        Fault { refusal, entry: 0 }
    }
}

// The entry of a slot that isn't used.
const FREE: Entry = Entry {
    kind: 0,
    parameter: 0,
    serial: Serial(0),
    id: MessageId(0),
};

// The plan of no slots.
pub fn empty_plan() -> Plan
    ensures { plan_of result ≡ empty }
{
    Plan {
        count: 0,
        entries: [FREE; SLOTS],
    }
}

// Whether an entry is none that a plan may have (docs/FORMATS.md).
#[tactic(auto, unfolding(crate::specs::Paper::bad))]
fn is_bad(entry: &Entry) -> bool
    ensures { result ≡ bad (entry_of entry.now) }
{
    match entry.kind {
        0 | 1 => entry.serial.0 != 0 || entry.id.0 != 0 || entry.parameter != 0,
        2 => false,
        _ => true,
    }
}

// What is wrong with a bad entry.
fn fault_of(entry: &Entry) -> Refusal
    ensures { number_of result ≡ fault_of (entry_of entry.now) }
{
    if entry.kind > 2 {
        return Refusal::PlanKind;
    }
    Refusal::PlanStray
}

// Whether entries are good, and if not what is wrong with the lowest bad one.
fn entries_answer(entries: &[Entry]) -> Result<(), Fault>
    requires { length entries.now ≤ 48 }
    ensures { verdict_of result ≡ entries_answer (entries_of entries.now) }
{
    for (i, entry) in entries.iter().enumerate() {
        if is_bad(entry) {
            return Err(Fault {
                refusal: fault_of(entry),
                entry: i as u8 + 1,
            });
        }
    }
    Ok(())
}

// Whether a plan by value is good, and if not why.
#[tactic(auto, unfolding(crate::specs::Paper::plan_number, crate::specs::Paper::plan_entry))]
pub fn plan_answer(plan: Plan) -> Result<(), Fault>
    ensures { verdict_of result ≡ plan_answer (plan_of plan) }
{
    if plan.count > SLOTS {
        return Err(Refusal::PlanLength.into());
    }
    // Stays a variable: a slice of the field would keep the whole plan on the stack beside the array that it was made of.
    let entries = plan.entries;
    entries_answer(&entries[..plan.count])
}

// Whether the current plan and the previous one are good and the current one has slots, and if not why.
#[tactic(auto, unfolding(crate::specs::Paper::plans_number, crate::specs::Paper::plans_entry))]
pub fn plans_answer(current: Plan, previous: Plan) -> Result<(), Fault>
    ensures { verdict_of result ≡ plans_answer (plan_of current) (plan_of previous) }
{
    plan_answer(current)?;
    plan_answer(previous)?;
    if current.count == 0 {
        return Err(Refusal::PlanEmpty.into());
    }
    Ok(())
}
