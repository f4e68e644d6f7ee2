// The calls of `plan_calls` for C: each calls the function of its name, and promises the same.
#![tactic(auto)]

ghost use Rattle.std.specs.Prelude.{◌≡◌};
ghost use Rattle.plan_calls.specs.Paper.{plan_call, write_schedule_call, check_slots_call, check_schedule_call};

// Reads a plan file: number + 256 × count, or the entry that the number names.
#[unsafe(no_mangle)]
pub extern "C" fn cb_read_plan(file: &[u8]) -> u32
    ensures { result ≡ plan_call file.now }
{
    plan_calls::cb_read_plan(file)
}

// Writes the schedule message of a plan file, beside the file before it: number + 256 × used octets, or the entry that the number names.
#[unsafe(no_mangle)]
pub extern "C" fn cb_write_schedule(
    current: &[u8],
    previous: &[u8],
    begin: usize,
    out: &mut [u8],
) -> u32
    ensures { record { returned = result; memory = out.new } ≡ write_schedule_call current.now previous.now begin out.old }
{
    plan_calls::cb_write_schedule(current, previous, begin, out)
}

// Checks a schedule message beside two plan files, slot by slot: number + 256 × slot, or the entry that the number names.
#[unsafe(no_mangle)]
pub extern "C" fn cb_check_slots(
    current: &[u8],
    previous: &[u8],
    message: &[u8],
    received: usize,
    verdicts: &mut [u8],
) -> u32
    ensures { record { returned = result; memory = verdicts.new } ≡ check_slots_call current.now previous.now message.now received verdicts.old }
{
    plan_calls::cb_check_slots(current, previous, message, received, verdicts)
}

// Checks a schedule message beside two plan files: number + 256 × slot, or the entry that the number names.
#[unsafe(no_mangle)]
pub extern "C" fn cb_check_schedule(
    current: &[u8],
    previous: &[u8],
    message: &[u8],
    received: usize,
) -> u32
    ensures { result ≡ check_schedule_call current.now previous.now message.now received }
{
    plan_calls::cb_check_schedule(current, previous, message, received)
}
