// Schedule messages read: their header, their new bits, and what stands at an octet.
#![tactic(auto)]

ghost use Rattle.std.specs.Prelude.{◌≡◌, ◌≤◌, length};
ghost use Rattle.laws.specs.Upto.{some_below};
ghost use Rattle.schedule.specs.Paper.{octet_at, end as end_of, new as new_of, bounded, new_past, short, told};
ghost use Rattle.schedule.specs.Coded.{told_of, shown_of, read_of};
ghost use Rattle.schedule.specs.Inner.{head_read};

use refusals::Refusal;
use sizes::{MESSAGE, SLOTS, whole_blocks};

// 000 3.5: the octets before the first description.
pub const HEADER: usize = 8;

// What a message tells of a slot.
#[derive(Clone, Copy, Debug, PartialEq, Eq)]
pub enum Description {
    // a first transmission, by the low 15 bits of its identifier
    First(u16),
    // a repeat of what the slot of this number holds
    Repeat(u8),
    Optional,
    Advised,
}

// A slot's new bit and its description (000 3.5.2 and 3.5.5).
#[derive(Clone, Copy, Debug, PartialEq, Eq)]
pub struct Slot {
    pub new: bool,
    pub description: Description,
}

// The slots that a message tells of, by its Begin and End (000 3.5.1): they are numbered from 1, and `end` is the last.
#[derive(Clone, Copy, Debug, PartialEq, Eq)]
pub struct Span {
    pub begin: usize,
    pub end: usize,
}

// An octet of a message, and 0 past its end.
// Stays 0 past the end: the contract's `octet_at` is, and a slot's place may be the last.
pub fn octet_at(message: &[u8], at: usize) -> u8
    ensures { result ≡ octet_at message.now at }
{
    message.get(at).copied().unwrap_or(0)
}

// Whether slot i, counted from 0, has its new bit set.
#[tactic(auto, using(crate::proofs::News::new_octet, crate::proofs::News::new_beyond))]
pub fn is_new(message: &[u8], i: usize) -> bool
    ensures { result ≡ new_of message.now i }
{
    if i >= SLOTS {
        return false;
    }
    (octet_at(message, 2 + i / 8) >> (7 - i % 8)) % 2 == 1
}

// The description that starts at a place.
pub fn told_at(message: &[u8], at: usize) -> Description
    ensures { told_of result ≡ told message.now at }
{
    let octet = octet_at(message, at);
    match octet {
        0x80.. => {
            let high = octet as u16 - 0x80;
            let low = octet_at(message, at + 1) as u16;
            Description::First(256 * high + low)
        }
        _ => short_description(octet),
    }
}

// The description of one octet.
// Stays two tests: as a `match` it costs 12 instructions of cb_slots, because the compiler asks for 41 first.
fn short_description(octet: u8) -> Description
    ensures { told_of result ≡ short octet }
{
    if octet < 0x40 {
        return Description::Repeat(octet);
    }
    if octet == 0x41 {
        return Description::Advised;
    }
    Description::Optional
}

// Slot i, counted from 0, as it is told by the description that starts at a place.
pub fn shown(message: &[u8], i: usize, at: usize) -> Slot
    ensures { shown_of result ≡ record { new = new_of message.now i; told = told message.now at } }
{
    let new = is_new(message, i);
    let description = told_at(message, at);
    Slot { new, description }
}

// Begin and End of a message, as far as its header settles the answer.
#[tactic(auto, unfolding(crate::specs::Inner::head_read))]
pub fn read_header(message: &[u8], received: usize) -> Result<Span, Refusal>
    ensures { read_of result ≡ head_read message.now received }
{
    let Ok(message) = <&[u8; MESSAGE]>::try_from(message) else {
        return Err(Refusal::MessageLength);
    };
    if !whole_blocks(received) {
        return Err(Refusal::ReceivedOctets);
    }
    let begin = message[0] as usize;
    let end = message[1] as usize % 64;
    if begin >= 64 {
        return Err(Refusal::ScheduleType);
    }
    if !is_in_bounds(begin, end) {
        return Err(Refusal::BeginOrEnd);
    }
    if has_new_past(message, end) {
        return Err(Refusal::NewPastEnd);
    }
    Ok(Span { begin, end })
}

// Whether Begin is from 1 to End, and End at most 48.
fn is_in_bounds(begin: usize, end: usize) -> bool
    ensures { result ≡ bounded begin end }
{
    1 <= begin && begin <= end && end <= SLOTS
}

// Whether the new bit of a slot past End is set.
fn has_new_past(message: &[u8; MESSAGE], end: usize) -> bool
    requires { end ≡ end_of message.now }
    ensures { result ≡ some_below (new_past message.now) 48 }
{
    for i in end..SLOTS {
        if is_new(message, i) {
            return true;
        }
    }
    false
}
