// The entry for C that tells all slots of a schedule message in one reading.
#![tactic(auto)]

ghost use Rattle.std.specs.Prelude.{◌≡◌, length};
ghost use Rattle.laws.specs.Upto.{each};
ghost use Rattle.slots_calls.specs.Paper.{packed_slot, slots_call};
ghost use Rattle.slots_calls.specs.Inner.{Shows, packed_by};

use refusals::Refusal;
use schedule_calls::code;
use sizes::SLOTS;

// Slot i, counted from 0, as one number, by its description's place: code + 2^16 × new bit, and 0 past End.
// Stays a number with 0 for none: cb_slots lends its slots as numbers, and DECISIONS has 0 there.
fn packed_at(message: &[u8], end: usize, i: usize, at: usize) -> u32
    ensures { result ≡ packed_by message.now end i at }
{
    if i >= end {
        return 0;
    }
    let slot = schedule::shown(message, i, at);
    let description = slot.description;
    code(description) + 0x10000 * slot.new as u32
}

// Tells each slot of a message that is read, by the places of its descriptions.
fn tell(message: &[u8], places: &[u8; SLOTS], end: usize, slots: &mut [u32; SLOTS])
    requires { Shows message.now places.now end }
    ensures { slots.new ≡ each (packed_slot message.now) 48 }
{
    for i in 0..SLOTS {
        slots[i] = packed_at(message, end, i, places[i] as usize);
    }
}

// Tells all slots of a schedule message, each as code + 2^16 × new bit: number + 2^8 × Begin + 2^16 × End.
#[tactic(auto, using(crate::proofs::Slots::slots_length))]
pub fn cb_slots(message: &[u8], received: usize, slots: &mut [u32]) -> u32
    ensures { record { returned = result; memory = slots.new } ≡ slots_call message.now received slots.old }
{
    let Some(slots) = slots.as_mut_array::<SLOTS>() else {
        return u32::from(u8::from(Refusal::OutputLength));
    };
    let answer = schedule_places::read_places(message, received);
    match answer {
        Err(refusal) => u32::from(u8::from(refusal)),
        Ok(found) => {
            let span = found.span;
            tell(message, &found.places, span.end, slots);
            0x100 * span.begin as u32 + 0x10000 * span.end as u32
        }
    }
}
