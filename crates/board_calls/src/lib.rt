// The entry for C by which a board decides for a slot.
#![tactic(auto)]

ghost use Rattle.std.specs.Prelude.{◌≡◌};
ghost use Rattle.board_calls.specs.Paper.{decide_call};

use board::Decision;
use board_held::Held;

// Reads or skips a slot: number + 256 × (1 read, 0 skip).
// Stays a flag beside a message: C has no Option.
pub fn cb_decide(
    known: bool,
    message: &[u8],
    received: usize,
    slot: usize,
    wanted: &[u16],
    held: u64,
) -> u32
    ensures { result ≡ decide_call known message.now received slot wanted.now held }
{
    let answer = board::decide_on(known, message, received, slot, wanted, Held(held));
    match answer {
        Ok(Decision::Read) => 256,
        Ok(Decision::Skip) => 0,
        Err(refusal) => u32::from(u8::from(refusal)),
    }
}
