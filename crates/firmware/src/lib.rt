// The intake for C firmware, on memory that it lends: 90 octets of state, a piece, 88 octets of output.
#![tactic(auto)]

ghost use Rattle.std.specs.Prelude.{◌≡◌, ◌≤◌, length, replicate};
ghost use Rattle.refusals.specs.Number.{number_of};
ghost use Rattle.block.specs.Paper.{start, added, handed, step};
ghost use Rattle.block.specs.Inner.{outcome, Adds};
ghost use Rattle.firmware.specs.Paper.{lent, held_in, moved, start_call, intake_call};

use block::Place;
use refusals::Refusal;
use sizes::{CONTENT, FILLER, MESSAGE};

// Octets of a lent state: kind, blocks taken, and a message.
pub const STATE: usize = 90;

// Makes a state as it must be before the first piece: 0, or StateImproper's number for memory that is not 90 octets.
#[tactic(auto, using(std::proofs::lemmas::Bool::Decides::nat_tests), unfolding(crate::specs::Paper::start_call))]
pub fn cb_start(state: &mut [u8]) -> u32
    ensures { record { number = result; state = state.new } ≡ start_call state.old }
{
    let Some(state) = state.as_mut_array::<STATE>() else {
        return u32::from(u8::from(Refusal::StateImproper));
    };
    clear(state);
    0
}

// Takes in one piece; a message that it completes is written to output. The answer and, above its 8 bits, the octets
// received. An output that is not 88 octets is refused as OutputLength, then a state that is not 90 as StateImproper, and
// both leave all memory as it was; then the state and the piece as by the intake by value.
#[tactic(auto, using(std::proofs::lemmas::Bool::Decides::nat_tests), unfolding(crate::specs::Paper::intake_call))]
pub fn cb_intake(state: &mut [u8], piece: &[u8], output: &mut [u8]) -> u32
    ensures { record { returned = result; state = state.new; output = output.new } ≡ intake_call state.old piece.now output.old }
{
    let Some(output) = output.as_mut_array::<MESSAGE>() else {
        return u32::from(u8::from(Refusal::OutputLength));
    };
    let Some(state) = state.as_mut_array::<STATE>() else {
        return u32::from(u8::from(Refusal::StateImproper));
    };
    take_in(state, piece, output)
}

// The same for memory of the right lengths.
fn take_in(state: &mut [u8; STATE], piece: &[u8], output: &mut [u8; MESSAGE]) -> u32
    ensures { record { returned = result; state = state.new; output = output.new } ≡ moved (step (held_in state.old) piece.now) output.old }
{
    let taken = state[1];
    if !block::is_proper(state[0], taken, &state[2..]) {
        return refuse(state, Refusal::StateImproper);
    }
    let found = block::place_of(taken, piece);
    let place = match found {
        Ok(place) => place,
        Err(refusal) => return refuse(state, refusal),
    };
    match place {
        Place::First(kind, last) => {
            clear(state);
            state[0] = u8::from(kind);
            add(state, piece, last, output)
        }
        Place::Next(last) => add(state, piece, last, output),
    }
}

// A refused piece is lost, and so is what was held.
fn refuse(state: &mut [u8; STATE], refusal: Refusal) -> u32
    ensures { (result ≡ number_of refusal) × (state.new ≡ lent start) }
{
    clear(state);
    u32::from(u8::from(refusal))
}

// The state as after start.
fn clear(state: &mut [u8; STATE])
    ensures { state.new ≡ lent start }
{
    fill(state);
    state[0] = 0;
    state[1] = 0;
}

// 2B everywhere.
fn fill(memory: &mut [u8])
    ensures { memory.new ≡ replicate (length memory.old) 0x2b }
{
    for octet in memory.iter_mut() {
        *octet = FILLER;
    }
}

// Adds a piece to the message in state; last: it completes the message.
// Stays a flag, last: it is what the place of the block says, and both ways add it alike.
fn add(state: &mut [u8; STATE], piece: &[u8], last: bool, output: &mut [u8; MESSAGE]) -> u32
    requires { Adds (held_in state.old).taken (held_in state.old).octets piece.now }
    ensures { record { returned = result; state = state.new; output = output.new } ≡ moved (outcome last (added (held_in state.old) piece.now)) output.old }
{
    put(state, piece);
    if !last {
        return 1;
    }
    hand_out(state, output)
}

// Copies the content of a piece behind that of the blocks taken, and counts the block.
// Stays by way of a local array: the state cannot overlap it, so that it is moved in a few steps and not octet by octet.
fn put(state: &mut [u8; STATE], piece: &[u8])
    requires { Adds (held_in state.old).taken (held_in state.old).octets piece.now }
    ensures { state.new ≡ lent (added (held_in state.old) piece.now) }
{
    let taken = state[1];
    let mut content = [0u8; CONTENT];
    octets::copy(&piece[1..], &mut content);
    let at = 2 + CONTENT * taken as usize;
    octets::copy(&content, &mut state[at..at + CONTENT]);
    state[1] = taken + 1;
}

// Hands out the message: copies it to output, and leaves the state as after start.
#[tactic(auto, using(crate::proofs::Lent::complete_over))]
fn hand_out(state: &mut [u8; STATE], output: &mut [u8; MESSAGE]) -> u32
    requires { 1 ≤ (held_in state.old).taken }
    ensures { record { returned = result; state = state.new; output = output.new } ≡ moved (handed (held_in state.old)) output.old }
{
    // Stays a number: the kind lies as an octet in memory that C lends.
    let kind = state[0];
    let received = 22 * state[1] as u32;
    octets::copy(&state[2..], output);
    clear(state);
    if kind == 2 {
        return 7 + 256 * received;
    }
    256 * received
}
