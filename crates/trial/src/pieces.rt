// Stored results of pieces taken in, by the intake by value.
use crate::fields;
use crate::told::{Line, Unlike};
use block_intake::{Answer, Reply, State};
use refusals::Refusal;
use sizes::MESSAGE;

// Characters of a field with a state: a space, and two digits for each of 90 octets.
const STATE_FIELD: usize = 181;

// I: state, piece, output length; number, octets received, state after, output after.
pub(crate) fn intake(line: &mut Line) {
    let mut lent = fields::room();
    let held = held_in(line.take_octets(&mut lent));
    let mut room = fields::room();
    let piece = line.take_octets(&mut room);
    let length = line.take_number(u64::MAX);
    match held {
        Some(state) if length == 88 => {
            let reply = block_intake::intake(state, piece);
            answered(line, &reply);
            line.state_after(reply.state);
            output(line, &reply);
        }
        _ => line.end(Unlike::NoValue),
    }
}

// Q: for each piece, from the start: piece, number, octets received, output after; at the end the state.
pub(crate) fn sequence(line: &mut Line) {
    if line.len() < STATE_FIELD {
        return line.end(Unlike::Unread);
    }
    let mut state = block_intake::start();
    // Each piece takes a character at least.
    for _ in 0..line.len() {
        let mut room = fields::room();
        let piece = line.take_octets(&mut room);
        let reply = block_intake::intake(state, piece);
        answered(line, &reply);
        output(line, &reply);
        state = reply.state;
        if !matches!(line.rest(), Ok(rest) if rest.len() > STATE_FIELD) {
            return line.state(state);
        }
    }
    line.end(Unlike::Unread);
}

// The number and the octets received of a reply.
fn answered(line: &mut Line, reply: &Reply) {
    let number = match reply.answer {
        Ok(Answer::Page) => 0,
        Ok(Answer::Taken) => 1,
        Ok(Answer::Schedule) => 7,
        Err(refusal) => u8::from(refusal),
    };
    line.number(u64::from(number));
    line.number(reply.received as u64);
}

// The message of a reply; where there is none, memory for it stays as it was.
fn output(line: &mut Line, reply: &Reply) {
    if reply.received == 0 {
        line.kept();
    } else {
        line.octets(&reply.octets);
    }
}

// The state that 90 octets hold.
fn held_in(lent: &[u8]) -> Option<State> {
    let [kind, taken, octets @ ..] = lent else {
        return None;
    };
    Some(State {
        kind: *kind,
        taken: *taken,
        octets: <[u8; MESSAGE]>::try_from(octets).ok()?,
    })
}
