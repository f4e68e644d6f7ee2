// The calls of `slots_calls` for C: each calls the function of its name, and promises the same.
#![tactic(auto)]

ghost use Rattle.std.specs.Prelude.{◌≡◌};
ghost use Rattle.slots_calls.specs.Paper.{slots_call};

// Tells all slots of a schedule message, each as code + 2^16 × new bit: number + 2^8 × Begin + 2^16 × End.
#[unsafe(no_mangle)]
pub extern "C" fn cb_slots(message: &[u8], received: usize, slots: &mut [u32]) -> u32
    ensures { record { returned = result; memory = slots.new } ≡ slots_call message.now received slots.old }
{
    slots_calls::cb_slots(message, received, slots)
}
