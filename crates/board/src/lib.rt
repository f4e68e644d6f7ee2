// What a board does at a slot: read or skip.
#![tactic(auto)]

ghost use Rattle.std.specs.Prelude.{◌≡◌, ◌&&◌, not, false, ◌≤◌, ◌<◌, length, Result};
ghost use Rattle.schedule.specs.Paper.{false_repeat};
ghost use Rattle.schedule.specs.Coded.{told_of};
ghost use Rattle.schedule.specs.Inner.{told_by};
ghost use Rattle.board_held.specs.Paper.{is_held};
ghost use Rattle.board_held.specs.Coded.{schedule_of, lent_schedule};
ghost use Rattle.board.specs.Paper.{is_wanted, first_matches, reads_for, decide as decide_of};
ghost use Rattle.board.specs.Inner.{counted, filled_wanted, reads_by};
ghost use Rattle.board.specs.Coded.{ids_of, wanted_of, lent_wanted, decided_of};

use board_held::{Held, Schedule};
use page::MessageId;
use refusals::Refusal;
use schedule::Description;
use sizes::SLOTS;

// 01 Numbers given, 42: the most identifiers that are wanted at a time.
pub const WANTED: usize = 64;

// The identifiers that are wanted; those past the count mean nothing.
// Stays a count beside an array: fixed memory, and `decide` refuses a count over the room by 42.
#[derive(Clone, Copy)]
pub struct Wanted {
    pub count: usize,
    pub ids: [MessageId; WANTED],
}

#[derive(Clone, Copy, Debug, PartialEq, Eq)]
pub enum Decision {
    Read,
    Skip,
}

// A list of identifiers by value: how many there are, so that over 64 are told from 64, and the first 64 of them.
pub fn wanted_of(list: &[u16]) -> Wanted
    ensures { wanted_of result ≡ filled_wanted list.now }
{
    let mut ids = [MessageId(0); WANTED];
    for (i, number) in list[..list.len().min(WANTED)].iter().enumerate() {
        ids[i] = MessageId(*number);
    }
    Wanted {
        count: list.len(),
        ids,
    }
}

// Whether an identifier that is wanted matches in 15 bits.
fn any_matches(wanted: &[u16], id: u16) -> bool
    ensures { result ≡ is_wanted (lent_wanted wanted.now) id }
{
    for one in wanted {
        if one % 0x8000 == id % 0x8000 {
            return true;
        }
    }
    false
}

// Whether a description is a first transmission that matches.
fn first_matches(description: Description, wanted: &[u16]) -> bool
    ensures { result ≡ first_matches (lent_wanted wanted.now) (told_of description) }
{
    match description {
        Description::First(id) => any_matches(wanted, id),
        Description::Repeat(_) | Description::Optional | Description::Advised => false,
    }
}

// Whether a first transmission that matches or not is still to be got, where its slot may be held.
fn unless_held(matches: bool, held: Held, slot: usize) -> bool
    ensures { result ≡ (matches && not (is_held held.0 slot)) }
{
    matches && !board_held::is_held(held, slot)
}

// Whether a slot is read by what is told of it, where its page's first transmission matches and is still to be got.
fn reads_by(description: Description, matches: bool, missing: bool) -> bool
    ensures { result ≡ reads_by matches missing (told_of description) }
{
    match description {
        Description::First(_) => matches,
        Description::Repeat(_) => missing,
        Description::Optional => false,
        Description::Advised => true,
    }
}

// Whether slot i, counted from 0, is read by what is told of it and of the slot that its page is entered under.
fn reads_for(message: &[u8], places: &[u8; SLOTS], i: usize, wanted: &[u16], held: Held) -> bool
    requires { (i < 48) × (false_repeat (told_by message.now places.now) i ≡ false) }
    ensures { result ≡ reads_for (told_by message.now places.now) (lent_wanted wanted.now) held.0 (told_by message.now places.now i) }
{
    let description = schedule::told_at(message, places[i] as usize);
    let under = board_held::entry_for(i + 1, description);
    let first = schedule::told_at(message, places[under - 1] as usize);
    let matches = first_matches(first, wanted);
    let missing = unless_held(matches, held, under);
    reads_by(description, matches, missing)
}

// Reads or skips a slot by a lent message, of which there may be none, where so many of some identifiers are wanted.
// Stays a flag beside a message: cb_decide hands both, and `decide` takes a Schedule, which has both.
#[tactic(auto, using(std::proofs::lemmas::Bool::Decides::nat_tests), unfolding(crate::specs::Paper::decide))]
fn decide_by(
    known: bool,
    message: &[u8],
    received: usize,
    slot: usize,
    ids: &[u16],
    count: usize,
    held: Held,
) -> Result<Decision, Refusal>
    requires { count ≤ 64 → count ≤ length ids.now }
    ensures { decided_of result ≡ decide_of (lent_schedule known message.now received) slot (counted count ids.now) held.0 }
{
    if slot < 1 || slot > SLOTS {
        return Err(Refusal::SlotNumber);
    }
    if count > WANTED {
        return Err(Refusal::WantedCount);
    }
    if !known {
        return Ok(Decision::Read);
    }
    let Ok(found) = schedule_places::read_places(message, received) else {
        return Ok(Decision::Read);
    };
    if !board_held::tells_of(Ok(found.span), slot) {
        return Ok(Decision::Read);
    }
    let places = found.places;
    if reads_for(message, &places, slot - 1, &ids[..count], held) {
        return Ok(Decision::Read);
    }
    Ok(Decision::Skip)
}

// Reads or skips a slot, counted from 1, by a lent message, of which there may be none, and a lent list of the identifiers that are
// wanted. Refuses by 41 and 42 (docs/FORMATS.md).
// Stays a flag beside a message: cb_decide has it so.
pub fn decide_on(
    known: bool,
    message: &[u8],
    received: usize,
    slot: usize,
    wanted: &[u16],
    held: Held,
) -> Result<Decision, Refusal>
    ensures { decided_of result ≡ decide_of (lent_schedule known message.now received) slot (lent_wanted wanted.now) held.0 }
{
    decide_by(known, message, received, slot, wanted, wanted.len(), held)
}

// Identifiers as their numbers.
fn numbers_of(ids: [MessageId; WANTED]) -> [u16; WANTED]
    ensures { result ≡ ids_of ids }
{
    let mut numbers = [0u16; WANTED];
    for (i, id) in ids.iter().enumerate() {
        numbers[i] = id.0;
    }
    numbers
}

// Reads or skips a slot by a schedule and identifiers held by value.
// Stays beside `decide_on`: a caller has one or the other, and each is promised.
pub fn decide(
    schedule: Schedule,
    slot: usize,
    wanted: Wanted,
    held: Held,
) -> Result<Decision, Refusal>
    ensures { decided_of result ≡ decide_of (schedule_of schedule) slot (wanted_of wanted) held.0 }
{
    let message = schedule.message;
    let known = schedule.known;
    let received = schedule.received;
    let ids = wanted.ids;
    let numbers = numbers_of(ids);
    decide_by(
        known,
        &message,
        received,
        slot,
        &numbers,
        wanted.count,
        held,
    )
}
