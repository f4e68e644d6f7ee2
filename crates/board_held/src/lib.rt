// The set of slots whose pages a board holds, and the slot that a page is entered under.
#![tactic(auto)]

ghost use Rattle.std.specs.Prelude.{◌≡◌};
ghost use Rattle.schedule.specs.Coded.{told_of, read_of};
ghost use Rattle.board_held.specs.Paper.{is_held, enter, entry_for, entered_under};
ghost use Rattle.board_held.specs.Inner.{answers};
ghost use Rattle.board_held.specs.Coded.{schedule_of, lent_schedule};

use refusals::Refusal;
use schedule::{Description, Span};
use sizes::{MESSAGE, SLOTS};

// The slots whose pages are held: slot n in bit n - 1, and the bits from 48 on mean nothing.
#[derive(Clone, Copy)]
pub struct Held(pub u64);

// A schedule message and the octets received of it, where there is one.
// Stays a flag beside a message: `decide` and `entered_under` take it so (`schedule_of` in their contracts), and C hands both.
#[derive(Clone, Copy)]
pub struct Schedule {
    pub known: bool,
    pub message: [u8; MESSAGE],
    pub received: usize,
}

// Whether a slot is held; numbers that are no slot's are not.
pub fn is_held(held: Held, slot: usize) -> bool
    ensures { result ≡ is_held held.0 slot }
{
    if slot < 1 {
        return false;
    }
    if slot > SLOTS {
        return false;
    }
    (held.0 >> (slot - 1)) % 2 == 1
}

impl Held {
    // The set with a slot entered.
    pub fn with(self, slot: usize) -> Held
        ensures { result.0 ≡ enter self.0 slot }
    {
        if slot < 1 {
            return self;
        }
        if slot > SLOTS {
            return self;
        }
        if is_held(self, slot) {
            return self;
        }
        Held(self.0 + (1u64 << (slot - 1)))
    }
}

// Whether a schedule that the reader answered so tells of a slot.
pub fn tells_of(answer: Result<Span, Refusal>, slot: usize) -> bool
    ensures { result ≡ answers (read_of answer) slot }
{
    let Ok(span) = answer else {
        return false;
    };
    if slot < 1 {
        return false;
    }
    slot <= span.end
}

// The slot that a page got at a slot is entered under, by what is told of the slot.
pub fn entry_for(slot: usize, description: Description) -> usize
    ensures { result ≡ entry_for slot (told_of description) }
{
    match description {
        Description::First(_) => slot,
        Description::Repeat(first) => first as usize,
        Description::Optional => slot,
        Description::Advised => slot,
    }
}

// The slot that a page got at a slot is entered under, by a lent message, of which there may be none.
// Stays a flag beside a message: cb_enter has it so.
pub fn entered_under_on(known: bool, message: &[u8], received: usize, slot: usize) -> usize
    ensures { result ≡ entered_under (lent_schedule known message.now received) slot }
{
    if !known {
        return slot;
    }
    let Ok(found) = schedule_places::read_places(message, received) else {
        return slot;
    };
    // Stays before the test: taken out behind it, the places would lie on the stack twice.
    let places = found.places;
    if !tells_of(Ok(found.span), slot) {
        return slot;
    }
    let description = schedule::told_at(message, places[slot - 1] as usize);
    entry_for(slot, description)
}

// The slot that a page got at a slot is entered under, by a schedule held by value.
// Stays beside the form on lent memory: a caller has one or the other, and each is promised.
pub fn entered_under(schedule: Schedule, slot: usize) -> usize
    ensures { result ≡ entered_under (schedule_of schedule) slot }
{
    let message = schedule.message;
    let known = schedule.known;
    let received = schedule.received;
    entered_under_on(known, &message, received, slot)
}
