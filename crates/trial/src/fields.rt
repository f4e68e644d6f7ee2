// What a line of stored results gives its call, read field by field: the format of tests/second/README.md, "Stored results".
ghost use Rattle.std.specs.Prelude.{◌≤◌, ◌<◌, MatchOption, ⊤, length};

use crate::told::{Line, Unlike};

// The most octets of a list.
const ROOM: usize = 1024;

// A number above which one more digit does not fit 64 bits.
const FULL: u64 = 0x0FFF_FFFF_FFFF_FFFF;

// Room for octets.
// Stays an array, here and where one is made: programs take no heap.
pub(crate) fn room() -> [u8; ROOM] {
    [0; ROOM]
}

impl<'a> Line<'a> {
    // Reads a number of at most so much.
    pub(crate) fn take_number(&mut self, most: u64) -> u64
        ensures { result ≤ most }
    {
        let value = number_in(self.field());
        if value > most {
            self.end(Unlike::Unread);
            return 0;
        }
        self.number(value);
        self.end_field();
        value
    }

    // Reads octets into a room, and gives the part of it that they take.
    pub(crate) fn take_octets<'r>(&mut self, room: &'r mut [u8]) -> &'r [u8]
        ensures { length result.now ≤ length room.old }
    {
        let count = octets_in(self.field(), room);
        let octets = &room[..count];
        self.octets(octets);
        self.end_field();
        octets
    }

    // What follows the blank before a field.
    fn field(&self) -> &'a [u8] {
        match self.rest() {
            Ok([_, field @ ..]) => field,
            _ => &[],
        }
    }
}

// The number whose digits a text starts with. Only what is told again in the same characters was read.
fn number_in(text: &[u8]) -> u64 {
    let mut value: u64 = 0;
    for character in text {
        match digit(*character) {
            Some(digit) if value <= FULL => value = 16 * value + u64::from(digit),
            _ => return value,
        }
    }
    value
}

// Puts the octets that a text starts with into a room, and answers how many there are. What is no second digit counts as 0.
fn octets_in(text: &[u8], room: &mut [u8]) -> usize
    ensures { result ≤ length room.new }
{
    let (pairs, _) = text.as_chunks::<2>();
    // No more of a field is looked at than has room: one that is longer is told otherwise, and so unread.
    let fitting = &pairs[..pairs.len().min(room.len())];
    let count = fitting
        .iter()
        .position(|pair| digit(pair[0]).is_none())
        .unwrap_or(fitting.len());
    for (octet, pair) in room[..count].iter_mut().zip(pairs) {
        *octet = 16 * digit(pair[0]).unwrap_or(0) + digit(pair[1]).unwrap_or(0);
    }
    count
}

// The value of a digit.
fn digit(character: u8) -> Option<u8>
    ensures { MatchOption result ⊤ (λ value. value < 16) }
{
    match character {
        b'0'..=b'9' => Some(character - b'0'),
        b'a'..=b'f' => Some(character - b'a' + 10),
        _ => None,
    }
}
