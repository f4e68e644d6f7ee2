// The entry for C by which a board keeps the set of slots whose pages it holds.
#![tactic(auto)]

ghost use Rattle.std.specs.Prelude.{◌≡◌};
ghost use Rattle.held_calls.specs.Paper.{enter_call};

use board_held::Held;

// The held set with the page got in a slot entered, under its first's slot where the schedule tells a repeat.
// Stays a flag beside a message: C has no Option.
pub fn cb_enter(known: bool, message: &[u8], received: usize, slot: usize, held: u64) -> u64
    ensures { result ≡ enter_call known message.now received slot held }
{
    let under = board_held::entered_under_on(known, message, received, slot);
    Held(held).with(under).0
}
