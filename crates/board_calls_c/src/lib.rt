// The calls of `board_calls` for C: each calls the function of its name, and promises the same.
#![tactic(auto)]

ghost use Rattle.std.specs.Prelude.{◌≡◌};
ghost use Rattle.board_calls.specs.Paper.{decide_call};

// Reads or skips a slot: number + 256 × (1 read, 0 skip).
#[unsafe(no_mangle)]
pub extern "C" fn cb_decide(
    known: bool,
    message: &[u8],
    received: usize,
    slot: usize,
    wanted: &[u16],
    held: u64,
) -> u32
    ensures { result ≡ decide_call known message.now received slot wanted.now held }
{
    board_calls::cb_decide(known, message, received, slot, wanted, held)
}
