// The calls of `schedule_calls` for C: each calls the function of its name, and promises the same.
#![tactic(auto)]

ghost use Rattle.std.specs.Prelude.{◌≡◌};
ghost use Rattle.schedule_calls.specs.Paper.{schedule_call, description_call};

// Reads a schedule message: number + 2^8 × Begin + 2^16 × End.
#[unsafe(no_mangle)]
pub extern "C" fn cb_read_schedule(message: &[u8], received: usize) -> u32
    ensures { result ≡ schedule_call message.now received }
{
    schedule_calls::cb_read_schedule(message, received)
}

// Gives the description that stands after `place` others: number + 2^8 × slot + 2^16 × new bit + 2^32 × code.
#[unsafe(no_mangle)]
pub extern "C" fn cb_description(message: &[u8], received: usize, place: usize) -> u64
    ensures { result ≡ description_call message.now received place }
{
    schedule_calls::cb_description(message, received, place)
}
