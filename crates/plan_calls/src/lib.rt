// The entries for C that take plans, as files: they read them, and write and check schedule messages beside them.
#![tactic(auto)]

ghost use Rattle.std.specs.Prelude.{◌≡◌, length};
ghost use Rattle.refusals.specs.Number.{number_of};
ghost use Rattle.calls.specs.Paper.{in_one};
ghost use Rattle.plan_calls.specs.Paper.{plan_call, write_schedule_call, check_slots_call, check_schedule_call};

use plan::Fault;
use refusals::Refusal;
use sizes::{MESSAGE, SLOTS};

// Reads a plan file: number + 256 × count, or the entry that the number names.
pub fn cb_read_plan(file: &[u8]) -> u32
    ensures { result ≡ plan_call file.now }
{
    let reading = plan_read::read_plan(file);
    match reading {
        Ok(plan) => 256 * plan.count as u32,
        Err(fault) => packed(fault),
    }
}

// A refusal and the entry that comes with it, as one number.
// Stays a function: how numbers are packed for C is this room's alone, and From can't stand here, between types of other crates.
fn packed(fault: Fault) -> u32
    ensures { result ≡ in_one (number_of fault.refusal) fault.entry }
{
    u32::from(u8::from(fault.refusal)) + 256 * u32::from(fault.entry)
}

// Writes the schedule message of a plan file, beside the file before it: number + 256 × used octets, or the entry that the number names.
pub fn cb_write_schedule(current: &[u8], previous: &[u8], begin: usize, out: &mut [u8]) -> u32
    ensures { record { returned = result; memory = out.new } ≡ write_schedule_call current.now previous.now begin out.old }
{
    if out.len() != MESSAGE {
        return u32::from(u8::from(Refusal::OutputLength));
    }
    // Stays a match for each file, here and below: a function that hands on both plans takes 700 octets of stack more.
    let this = plan_read::read_plan(current);
    let plan = match this {
        Ok(plan) => plan,
        Err(fault) => return packed(fault),
    };
    let last = plan_read::read_plan(previous);
    let older = match last {
        Ok(plan) => plan,
        Err(fault) => return packed(fault),
    };
    let answer = sender::write_schedule(plan, older, begin, out);
    match answer {
        Ok(used) => 256 * used as u32,
        Err(fault) => packed(fault),
    }
}

// Checks a schedule message beside two plan files, slot by slot: number + 256 × slot, or the entry that the number names.
pub fn cb_check_slots(
    current: &[u8],
    previous: &[u8],
    message: &[u8],
    received: usize,
    verdicts: &mut [u8],
) -> u32
    ensures { record { returned = result; memory = verdicts.new } ≡ check_slots_call current.now previous.now message.now received verdicts.old }
{
    if verdicts.len() != SLOTS {
        return u32::from(u8::from(Refusal::OutputLength));
    }
    check_files(current, previous, message, received, verdicts)
}

// The check beside two plan files, where there is room for the verdicts.
// Stays a function: a call's room for plans is laid out as it begins, which a call that is refused for its length would pay for.
fn check_files(
    current: &[u8],
    previous: &[u8],
    message: &[u8],
    received: usize,
    verdicts: &mut [u8],
) -> u32
    requires { length verdicts.old ≡ 48 }
    ensures { record { returned = result; memory = verdicts.new } ≡ check_slots_call current.now previous.now message.now received verdicts.old }
{
    let this = plan_read::read_plan(current);
    let plan = match this {
        Ok(plan) => plan,
        Err(fault) => return packed(fault),
    };
    let last = plan_read::read_plan(previous);
    let older = match last {
        Ok(plan) => plan,
        Err(fault) => return packed(fault),
    };
    let said = checker_plans::beside(plan, older);
    let answer = checker::check_slots(said, message, received, verdicts);
    match answer {
        Ok(()) => 0,
        Err(fault) => u32::from(u8::from(fault.refusal)) + 256 * fault.slot as u32,
    }
}

// Checks a schedule message beside two plan files: number + 256 × slot, or the entry that the number names.
pub fn cb_check_schedule(current: &[u8], previous: &[u8], message: &[u8], received: usize) -> u32
    ensures { result ≡ check_schedule_call current.now previous.now message.now received }
{
    let mut verdicts = [0u8; SLOTS];
    cb_check_slots(current, previous, message, received, &mut verdicts)
}
