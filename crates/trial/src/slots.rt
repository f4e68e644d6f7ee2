// Stored results of schedule messages and of a board's slots, by the reader of descriptions and the board by value.
use crate::fields;
use crate::told::{Line, Unlike};
use board::{Decision, Wanted};
use board_held::{Held, Schedule};
use schedule_given::Numbered;
use sizes::MESSAGE;

// The most numbers of two octets in a list.
const NUMBERS: usize = 512;

// S: message, received; number, Begin, End; then for each description, in the message's order: slot, new bit, code.
pub(crate) fn schedule(line: &mut Line) {
    let mut room = fields::room();
    let message = line.take_octets(&mut room);
    let received = line.take_number(u64::MAX) as usize;
    match schedule_places::read_schedule(message, received) {
        Ok(span) => {
            line.numbers(&[0, span.begin as u64, span.end as u64]);
            descriptions(line, message, received);
        }
        Err(refusal) => line.numbers(&[u64::from(u8::from(refusal)), 0, 0]),
    }
}

// The descriptions of a message that is read, to its last. Each takes a character at least.
fn descriptions(line: &mut Line, message: &[u8], received: usize) {
    let mut place = 0;
    for _ in 0..line.len() {
        let step = descriptions::given_at(message, received, place);
        let Ok(Some(numbered)) = step.given else {
            return;
        };
        shown(line, numbered);
        place = step.place;
    }
    line.end(Unlike::Differs);
}

// A description: slot, new bit, code.
fn shown(line: &mut Line, numbered: Numbered) {
    line.number(numbered.number as u64);
    line.number(u64::from(numbered.slot.new));
    line.number(u64::from(schedule_calls::code(numbered.slot.description)));
}

// G: message, received, place; number, slot, new bit, code.
pub(crate) fn description(line: &mut Line) {
    let mut room = fields::room();
    let message = line.take_octets(&mut room);
    let received = line.take_number(u64::MAX) as usize;
    let place = line.take_number(u64::MAX) as usize;
    match descriptions::given_at(message, received, place).given {
        Ok(Some(numbered)) => {
            line.number(0);
            shown(line, numbered);
        }
        Ok(None) => line.numbers(&[0, 0, 0, 0]),
        Err(refusal) => line.numbers(&[u64::from(u8::from(refusal)), 0, 0, 0]),
    }
}

// D: known (0 or 1), message, received, slot, wanted, held; number, 1 read or 0 skip.
pub(crate) fn decision(line: &mut Line) {
    let mut room = fields::room();
    let (known, message, received, slot) = take_schedule(line, &mut room);
    let mut words = fields::room();
    let wanted = line.take_octets(&mut words);
    let held = Held(line.take_number(u64::MAX));
    match schedule_of(known, message, received) {
        Some(given) => decided(line, given, slot, wanted, held),
        None => line.end(Unlike::NoValue),
    }
}

// Stays apart from what reads the line: only a line that has a value pays for the arrays.
fn decided(line: &mut Line, given: Schedule, slot: usize, wanted: &[u8], held: Held) {
    match board::decide(given, slot, wanted_from(wanted), held) {
        Ok(Decision::Read) => line.numbers(&[0, 1]),
        Ok(Decision::Skip) => line.numbers(&[0, 0]),
        Err(refusal) => line.numbers(&[u64::from(u8::from(refusal)), 0]),
    }
}

// E: known (0 or 1), message, received, slot, held; held after.
pub(crate) fn entry(line: &mut Line) {
    let mut room = fields::room();
    let (known, message, received, slot) = take_schedule(line, &mut room);
    let held = Held(line.take_number(u64::MAX));
    match schedule_of(known, message, received) {
        Some(given) => line.number(held.with(board_held::entered_under(given, slot)).0),
        None => line.end(Unlike::NoValue),
    }
}

// Reads what D and E begin with: known, a message, the octets received of it, and a slot.
fn take_schedule<'r>(line: &mut Line, room: &'r mut [u8]) -> (bool, &'r [u8], usize, usize) {
    let known = line.take_number(1) == 1;
    let message = line.take_octets(room);
    let received = line.take_number(u64::MAX) as usize;
    let slot = line.take_number(u64::MAX) as usize;
    (known, message, received, slot)
}

// A schedule, where its message has the octets of one by value.
fn schedule_of(known: bool, message: &[u8], received: usize) -> Option<Schedule> {
    let message = <[u8; MESSAGE]>::try_from(message).ok()?;
    Some(Schedule {
        known,
        message,
        received,
    })
}

// The identifiers that are wanted by value, from two octets each.
fn wanted_from(octets: &[u8]) -> Wanted {
    let mut numbers = [0u16; NUMBERS];
    let (pairs, _) = octets.as_chunks::<2>();
    for (number, pair) in numbers.iter_mut().zip(pairs) {
        *number = page::joined(pair[0], pair[1]);
    }
    board::wanted_of(&numbers[..pairs.len().min(NUMBERS)])
}
