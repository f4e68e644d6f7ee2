// The intake by value: blocks taken in one at a time.
#![tactic(auto)]

ghost use Rattle.std.specs.Prelude.{◌≡◌};
ghost use Rattle.refusals.specs.Number.{number_of};
ghost use Rattle.block.specs.Paper.{added, step, start as start_of};
ghost use Rattle.block.specs.Inner.{outcome, Adds};
ghost use Rattle.block_intake.specs.Coded.{held_of, given_of, leaving};

use block::Place;
use refusals::Refusal;
use sizes::{CONTENT, FILLER, MESSAGE};

// A message of which some blocks are taken: kind 0 for none, 1 for a page, 2 for a schedule.
// Stays a number, kind: a state is what a caller kept, and `intake` refuses one of another kind by 8.
#[derive(Clone, Copy)]
pub struct State {
    pub kind: u8,
    pub taken: u8,
    pub octets: [u8; MESSAGE],
}

// The state before the first piece.
pub fn start() -> State
    ensures { held_of result ≡ start_of }
{
    State {
        kind: 0,
        taken: 0,
        octets: [FILLER; MESSAGE],
    }
}

// What the intake answers to a piece that it doesn't refuse: a message complete, or a block taken.
#[derive(Clone, Copy, Debug, PartialEq, Eq)]
pub enum Answer {
    Page,
    Schedule,
    Taken,
}

// The answer, the octets received and the message where it is complete, and the state afterwards.
// Stays an array and a number of octets, here and in State: there is no heap on a board.
#[derive(Clone, Copy)]
pub struct Reply {
    pub answer: Result<Answer, Refusal>,
    pub received: usize,
    pub octets: [u8; MESSAGE],
    pub state: State,
}

// Takes in one piece. A state that is not proper is refused as StateImproper, and then a piece as `block::place_of` has it;
// after a refusal the state is as after start.
// Stays beside cb_intake: who lends no memory has a state by value, and each is promised.
pub fn intake(state: State, piece: &[u8]) -> Reply
    ensures { given_of result ≡ step (held_of state) piece.now }
{
    let started = start();
    if !block::is_proper(state.kind, state.taken, &state.octets) {
        return refused(Refusal::StateImproper, started);
    }
    let found = block::place_of(state.taken, piece);
    let place = match found {
        Ok(place) => place,
        Err(refusal) => return refused(refusal, started),
    };
    match place {
        Place::First(kind, last) => {
            let begun = State {
                kind: u8::from(kind),
                ..started
            };
            add(begun, piece, last)
        }
        Place::Next(last) => add(state, piece, last),
    }
}

// The answer to a refused piece, with the state afterwards.
fn refused(refusal: Refusal, state: State) -> Reply
    ensures { given_of result ≡ leaving (number_of refusal) (held_of state) }
{
    Reply {
        answer: Err(refusal),
        received: 0,
        octets: [FILLER; MESSAGE],
        state,
    }
}

// The answer to a piece that is added to the message in state; last: it completes the message.
// Stays a flag, last: it is what the place of the block says, and both ways add it alike.
fn add(state: State, piece: &[u8], last: bool) -> Reply
    requires { Adds state.taken state.octets piece.now }
    ensures { given_of result ≡ outcome last (added (held_of state) piece.now) }
{
    let mut octets = state.octets;
    let at = CONTENT * state.taken as usize;
    octets::copy(&piece[1..], &mut octets[at..at + CONTENT]);
    let taken = state.taken + 1;
    if !last {
        return Reply {
            answer: Ok(Answer::Taken),
            received: 0,
            octets: [FILLER; MESSAGE],
            state: State {
                kind: state.kind,
                taken,
                octets,
            },
        };
    }
    let answer = if state.kind == 2 {
        Answer::Schedule
    } else {
        Answer::Page
    };
    Reply {
        answer: Ok(answer),
        received: CONTENT * taken as usize,
        octets,
        state: start(),
    }
}
