// The description that a schedule message has after a given number of others, with its slot.
#![tactic(auto)]

ghost use Rattle.std.specs.Prelude.{◌≡◌, true, false, ◌<◌, ◌≤◌};
ghost use Rattle.laws.specs.Upto.{count};
ghost use Rattle.schedule.specs.Paper.{end as end_of, grouped, slot_of, given};
ghost use Rattle.schedule_given.specs.Coded.{given_of};
ghost use Rattle.schedule.specs.Inner.{Picks};

use refusals::Refusal;
use schedule::Slot;

// A slot by its number, of which the first is 1.
#[derive(Clone, Copy, Debug, PartialEq, Eq)]
pub struct Numbered {
    pub number: usize,
    pub slot: Slot,
}

// The description that stands after the given number of others, with its slot, if the message has one there.
pub fn description_at(
    message: &[u8],
    received: usize,
    place: usize,
) -> Result<Option<Numbered>, Refusal>
    ensures { given_of result ≡ given message.now received place }
{
    let found = schedule_places::read_places(message, received)?;
    let end = found.span.end;
    if place >= end {
        return Ok(None);
    }
    let told = Told { message, end };
    let i = told.slot_at(place);
    let at = found.places[i];
    let slot = schedule::shown(message, i, at as usize);
    let number = i + 1;
    Ok(Some(Numbered { number, slot }))
}

// A message that was read, with its End.
#[derive(Clone, Copy)]
struct Told<'a> {
    message: &'a [u8],
    end: usize,
    ghost ends: { end ≡ end_of message.now },
    ghost last: { end ≤ 48 },
}

impl Told<'_> {
    // The slot, counted from 0, whose description stands after the given number of others.
    fn slot_at(self, place: usize) -> usize
        requires { place < self.end }
        ensures { (result ≡ slot_of self.entry.message.now place) × (result < self.entry.end) }
    {
        let news = self.count_new();
        if place < news {
            return self.pick(true, place);
        }
        self.pick(false, place - news)
    }

    // How many of the slots up to End have their new bit set.
    fn count_new(self) -> usize
        ensures { result ≡ count (grouped self.entry.message.now true) self.entry.end }
    {
        let mut n = 0;
        for i in 0..self.end {
            if schedule::is_new(self.message, i) {
                n += 1;
            }
        }
        n
    }

    // The slot, counted from 0, before which the given number of slots up to End have the same new bit, as given.
    // Stays a flag that picks the group: both groups are searched by one loop.
    fn pick(self, new: bool, place: usize) -> usize
        requires { place < count (grouped self.message.now new) self.end }
        ensures { Picks self.entry.message.now new place result }
    {
        let mut left = place;
        for i in 0..self.end {
            if schedule::is_new(self.message, i) == new {
                if left == 0 {
                    return i;
                }
                left -= 1;
            }
        }
        self.end
    }
}
