// The calls of `held_calls` for C: each calls the function of its name, and promises the same.
#![tactic(auto)]

ghost use Rattle.std.specs.Prelude.{◌≡◌};
ghost use Rattle.held_calls.specs.Paper.{enter_call};

// The held set with the page got in a slot entered, under its first's slot where the schedule tells a repeat.
#[unsafe(no_mangle)]
pub extern "C" fn cb_enter(
    known: bool,
    message: &[u8],
    received: usize,
    slot: usize,
    held: u64,
) -> u64
    ensures { result ≡ enter_call known message.now received slot held }
{
    held_calls::cb_enter(known, message, received, slot, held)
}
