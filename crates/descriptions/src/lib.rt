// The descriptions of a lent schedule message, given one after the other.
#![tactic(auto)]

ghost use Rattle.std.specs.Prelude.{◌≡◌};
ghost use Rattle.schedule_given.specs.Coded.{given_of};
ghost use Rattle.descriptions.specs.Paper.{passed, stepped, ordered};
ghost use Rattle.descriptions.specs.Coded.{stepped_of, called_of, called, ordered_of};

use refusals::Refusal;
use schedule::{Description, Slot};
use schedule_given::Numbered;
use sizes::SLOTS;

// All that the description reader gives, in the message's order: how many slots, or the refusal, and the slots themselves.
// Stays an array beside its count: there is no heap here. With a refusal no slot is given, as the message is refused at its first place.
#[derive(Clone, Copy)]
pub struct Ordered {
    pub answer: Result<usize, Refusal>,
    pub given: [Numbered; SLOTS],
}

// What a call gives, and the place that it leaves.
#[derive(Clone, Copy)]
pub struct Stepped {
    pub given: Result<Option<Numbered>, Refusal>,
    pub place: usize,
}

// The lent message, the octets received of it, and how many of its descriptions are given already.
#[derive(Clone, Copy)]
pub struct Descriptions<'a> {
    pub message: &'a [u8],
    pub received: usize,
    pub place: usize,
}

// The descriptions of a message, none given yet.
pub fn open<'a>(message: &'a [u8], received: usize) -> Descriptions<'a>
    ensures { (result.message ≡ message.entry) × (result.received ≡ received) × (result.place ≡ 0) }
{
    Descriptions {
        message,
        received,
        place: 0,
    }
}

// How many descriptions a call passes.
fn passed(given: Result<Option<Numbered>, Refusal>) -> usize
    ensures { result ≡ passed (given_of given) }
{
    match given {
        Ok(Some(_)) => 1,
        Ok(None) => 0,
        Err(_) => 0,
    }
}

// What a call gives at a place, and the place that it leaves.
fn step_at(message: &[u8], received: usize, place: usize) -> Stepped
    ensures { stepped_of result ≡ stepped message.now received place }
{
    let given = schedule_given::description_at(message, received, place);
    Stepped {
        given,
        place: place + passed(given),
    }
}

// What stands at the place is given, and the place moves past it.
pub fn next<'s, 'a>(descriptions: &'s mut Descriptions<'a>) -> Result<Option<Numbered>, Refusal>
    ensures { called_of result descriptions.new ≡ called descriptions.old }
{
    let step = step_at(
        descriptions.message,
        descriptions.received,
        descriptions.place,
    );
    descriptions.place = step.place;
    step.given
}

// The held reader at a place: what a call gives, and the place that it leaves.
pub fn given_at(message: &[u8], received: usize, place: usize) -> Stepped
    ensures { stepped_of result ≡ stepped message.now received place }
{
    let mut descriptions = Descriptions {
        message,
        received,
        place,
    };
    let given = next(&mut descriptions);
    Stepped {
        given,
        place: descriptions.place,
    }
}

// All that is given from opening on. Each step reads the message anew: where the order doesn't matter, `schedule_places::read_places` is the fast way.
pub fn all_given(message: &[u8], received: usize) -> Ordered
    ensures { ordered_of result ≡ ordered message.now received }
{
    let mut slots = [Numbered {
        number: 0,
        slot: Slot {
            new: false,
            description: Description::Optional,
        },
    }; SLOTS];
    // Stays a place beside the count of calls: each call is asked at the place that the one before it left.
    let mut place = 0;
    for _ in 0..SLOTS {
        let step = given_at(message, received, place);
        let given = step.given;
        match given {
            Ok(Some(one)) => {
                slots[place] = one;
            }
            Ok(None) => {
                return Ordered {
                    answer: Ok(place),
                    given: slots,
                };
            }
            Err(refusal) => {
                return Ordered {
                    answer: Err(refusal),
                    given: slots,
                };
            }
        }
        place = step.place;
    }
    Ordered {
        answer: Ok(place),
        given: slots,
    }
}
