// Schedule messages that tell some slots: header, new bits, descriptions, 2B.
#![tactic(auto)]

ghost use Rattle.std.specs.Prelude.{◌≡◌, [], ◌∷◌, ◌++◌, ◌+◌, ◌≤◌, ◌<◌, length};
ghost use Rattle.std.proofs.lemmas.List.Edits.{sets};
ghost use Rattle.sender_message.specs.Paper.{octets_of, octets_of_all, group, descriptions, new_bit, new_bits, bitmap_of, used_part, write_message};
ghost use Rattle.sender_message.specs.Coded.{told_as, writing_of, shown_in};

use refusals::Refusal;
use schedule::{Description, Slot};
use sizes::{FILLER, MESSAGE, SLOTS};

// The octets of a header and of 48 descriptions of two octets. A message that fits has the first 88 of them.
const ROOM: usize = 104;

// The new bit of slot i of those that are told; past the last it is 0.
fn new_bit(told: &[Slot], i: usize) -> u8
    ensures { result ≡ new_bit (shown_in told.now) (length told.now) i }
{
    match told.get(i) {
        Some(slot) => u8::from(slot.new),
        None => 0,
    }
}

// Eight new bits, those of octet j, counted from 0.
fn new_octet(told: &[Slot], j: usize) -> u8
    requires { j < 6 }
    ensures { result ≡ new_bits (shown_in told.now) (length told.now) j 8 }
{
    let mut bits = 0u8;
    for k in 0..8 {
        bits = 2 * bits + new_bit(told, 8 * j + k);
    }
    bits
}

// A message as it is put together: what is put stands before the place `next`.
#[derive(Drop)]
struct Draft {
    octets: [u8; ROOM],
    next: usize,
}

impl Draft {
    fn put_octet(&mut self, octet: u8)
        requires { self.old.next < 104 }
        ensures octets { self.new.octets ≡ sets self.old.octets self.old.next (octet ∷ []) }
        ensures next { self.new.next ≡ self.old.next + 1 }
    {
        self.octets[self.next] = octet;
        self.next += 1;
    }

    // Begin, End and the new bits.
    fn put_header(&mut self, told: &[Slot], begin: usize)
        requires { (self.old.next ≡ 0) × (begin < 256) × (length told.now ≤ 48) }
        ensures octets { self.new.octets ≡ sets self.old.octets 0 ((begin ∷ length told.now ∷ []) ++ bitmap_of (shown_in told.now) (length told.now)) }
        ensures next { self.new.next ≡ 8 }
    {
        self.put_octet(begin as u8);
        self.put_octet(told.len() as u8);
        for j in 0..6 {
            self.put_octet(new_octet(told, j));
        }
    }

    fn put(&mut self, description: Description)
        requires { self.old.next + length (octets_of (told_as description)) ≤ 104 }
        ensures octets { self.new.octets ≡ sets self.old.octets self.old.next (octets_of (told_as description)) }
        ensures next { self.new.next ≡ self.old.next + length (octets_of (told_as description)) }
    {
        match description {
            Description::First(low) => {
                let bits = low % 0x8000;
                self.put_octet(0x80 + (bits / 256) as u8);
                self.put_octet((bits % 256) as u8);
            }
            Description::Repeat(slot) => self.put_octet(slot),
            Description::Optional => self.put_octet(0x40),
            Description::Advised => self.put_octet(0x41),
        }
    }

    // The descriptions of the slots whose new bit is as given.
    // Stays a flag that picks the group: both groups are put by one loop.
    fn put_group(&mut self, told: &[Slot], new: bool)
        requires { self.old.next + length (octets_of_all (shown_in told.now) (group (shown_in told.now) (length told.now) new)) ≤ 104 }
        ensures octets { self.new.octets ≡ sets self.old.octets self.old.next (octets_of_all (shown_in told.now) (group (shown_in told.now) (length told.now) new)) }
        ensures next { self.new.next ≡ self.old.next + length (octets_of_all (shown_in told.now) (group (shown_in told.now) (length told.now) new)) }
    {
        for slot in told {
            if slot.new == new {
                self.put(slot.description);
            }
        }
    }

    // The whole message, however long.
    fn compose(&mut self, told: &[Slot], begin: usize)
        requires { (self.old.next ≡ 0) × (begin < 256) × (length told.now ≤ 48) }
        ensures { (self.new.octets ≡ sets self.old.octets 0 (used_part begin (shown_in told.now) (length told.now))) × (self.new.next ≡ 8 + length (descriptions (shown_in told.now) (length told.now))) }
    {
        self.put_header(told, begin);
        self.put_group(told, true);
        self.put_group(told, false);
    }
}

// Writes the message that tells the first `count` of some slots (GSM 04.12 3.5), and gives the octets that it uses of the 88. `begin` is
// the number of the slot in which the schedule begins, counted from 1. A refusal, 15, 21 or 34 (docs/FORMATS.md), leaves the output as it is.
// Stays a count beside the slots: one over 48 is refused by 21.
#[tactic(auto, unfolding(crate::specs::Paper::write_message), using(std::proofs::lemmas::Bool::Decides::nat_tests))]
pub fn write_message(
    slots: [Slot; SLOTS],
    count: usize,
    begin: usize,
    out: &mut [u8],
) -> Result<usize, Refusal>
    ensures { writing_of result out.new ≡ write_message begin (shown_in slots) count out.old }
{
    if out.len() != MESSAGE {
        return Err(Refusal::OutputLength);
    }
    if begin == 0 || begin > count || count > SLOTS {
        return Err(Refusal::BeginOrEnd);
    }
    let mut draft = Draft {
        octets: [FILLER; ROOM],
        next: 0,
    };
    draft.compose(&slots[..count], begin);
    if draft.next > MESSAGE {
        return Err(Refusal::DescriptionsTooLong);
    }
    octets::copy(&draft.octets[..MESSAGE], out);
    Ok(draft.next)
}
