// The entries for C that read a schedule message, Begin and End or one description; and descriptions as numbers.
#![tactic(auto)]

ghost use Rattle.std.specs.Prelude.{◌≡◌};
ghost use Rattle.schedule.specs.Coded.{told_of};
ghost use Rattle.schedule_calls.specs.Paper.{code_of, schedule_call, description_call};

use schedule::Description;

// A description as one number.
// Stays a function: the code is what C is given, so it's this room's, and From can't stand here, between types of other crates.
pub fn code(description: Description) -> u32
    ensures { result ≡ code_of (told_of description) }
{
    match description {
        Description::First(bits) => 0x8000 + bits as u32,
        Description::Repeat(slot) => slot as u32,
        Description::Optional => 0x40,
        Description::Advised => 0x41,
    }
}

// Reads a schedule message: number + 2^8 × Begin + 2^16 × End.
pub fn cb_read_schedule(message: &[u8], received: usize) -> u32
    ensures { result ≡ schedule_call message.now received }
{
    let answer = schedule_places::read_schedule(message, received);
    match answer {
        Ok(span) => 0x100 * span.begin as u32 + 0x10000 * span.end as u32,
        Err(refusal) => u32::from(u8::from(refusal)),
    }
}

// Gives the description that stands after `place` others: number + 2^8 × slot + 2^16 × new bit + 2^32 × code.
pub fn cb_description(message: &[u8], received: usize, place: usize) -> u64
    ensures { result ≡ description_call message.now received place }
{
    let answer = schedule_given::description_at(message, received, place);
    match answer {
        Ok(Some(given)) => {
            let slot = given.slot;
            let high = 0x100000000 * code(slot.description) as u64;
            high + 0x10000 * slot.new as u64 + 0x100 * given.number as u64
        }
        Ok(None) => 0,
        Err(refusal) => u64::from(u8::from(refusal)),
    }
}
