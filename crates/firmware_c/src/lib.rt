// The calls of `firmware` for C: each calls the function of its name, and promises the same.
#![tactic(auto)]

ghost use Rattle.std.specs.Prelude.{◌≡◌};
ghost use Rattle.firmware.specs.Paper.{start_call, intake_call};

// Makes a state as it must be before the first piece.
#[unsafe(no_mangle)]
pub extern "C" fn cb_start(state: &mut [u8]) -> u32
    ensures { record { number = result; state = state.new } ≡ start_call state.old }
{
    firmware::cb_start(state)
}

// Takes in one piece; a message that it completes is written to output.
#[unsafe(no_mangle)]
pub extern "C" fn cb_intake(state: &mut [u8], piece: &[u8], output: &mut [u8]) -> u32
    ensures { record { returned = result; state = state.new; output = output.new } ≡ intake_call state.old piece.now output.old }
{
    firmware::cb_intake(state, piece, output)
}
