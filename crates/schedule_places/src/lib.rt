// Where the description of each slot of a schedule message starts.
#![tactic(auto)]

ghost use Rattle.std.specs.Prelude.{◌≡◌, ◌≤◌, length};
ghost use Rattle.laws.specs.Upto.{some_below};
ghost use Rattle.schedule.specs.Paper.{place as place_of, base, is_first, false_repeat, read};
ghost use Rattle.schedule.specs.Coded.{told_of, read_of};
ghost use Rattle.schedule.specs.Inner.{told_by};
ghost use Rattle.schedule_places.specs.Coded.{placed_of};
ghost use Rattle.schedule_places.specs.Inner.{placed, Readable, NewBits, Group, stepped_of, step, Firsts};

use refusals::Refusal;
use schedule::{Description, HEADER, Span};
use sizes::SLOTS;

// Begin and End of a message, and where the description of each slot starts, in octets from the message's first, which is 0;
// 0 too for a slot past End.
// Stays an array: there is no heap here, and cb_slots gives 0 past End.
#[derive(Clone, Copy, Debug, PartialEq, Eq)]
pub struct Placed {
    pub span: Span,
    pub places: [u8; SLOTS],
}

// Reads Begin and End of a message.
pub fn read_schedule(message: &[u8], received: usize) -> Result<Span, Refusal>
    ensures { read_of result ≡ read message.now received }
{
    let placed = read_places(message, received)?;
    Ok(placed.span)
}

// Reads a message as far as where each description starts.
pub fn read_places(message: &[u8], received: usize) -> Result<Placed, Refusal>
    ensures { placed_of result ≡ placed message.now received }
{
    let span = schedule::read_header(message, received)?;
    let end = span.end;
    let bits = new_bits(message);
    let mut places = [0; SLOTS];
    // Stays beside the places: the answer is the places alone, and to take them out of pairs is one loop more.
    let mut firsts = [false; SLOTS];
    let next = find_group(
        message,
        received,
        end,
        bits,
        true,
        HEADER,
        &mut places,
        &mut firsts,
    )?;
    find_group(
        message,
        received,
        end,
        bits,
        false,
        next,
        &mut places,
        &mut firsts,
    )?;
    if has_false_repeat(message, &places[..end], &firsts) {
        return Err(Refusal::RepeatOfNoFirst);
    }
    Ok(Placed { span, places })
}

// The new bits as one number of 48 bits, that of slot 1 the highest.
fn new_bits(message: &[u8]) -> u64
    ensures { NewBits message.now result }
{
    let mut bits: u64 = 0;
    for j in 0..6 {
        bits = 256 * bits + schedule::octet_at(message, 2 + j) as u64;
    }
    bits
}

// Finds the descriptions of the slots up to End whose new bit is as given, the first of which starts at a place: where that of
// each slot starts, which are first transmissions, and the place behind the last.
// Stays a flag that picks the group: both groups are found by one loop.
fn find_group(
    message: &[u8],
    received: usize,
    end: usize,
    bits: u64,
    new: bool,
    from: usize,
    places: &mut [u8; SLOTS],
    firsts: &mut [bool; SLOTS],
) -> Result<usize, Refusal>
    requires { Readable message.now received end × NewBits message.now bits × (from ≡ place_of message.now (base message.now new)) × (from ≤ received) }
    ensures { Group message.now received new places.old firsts.old places.new firsts.new result }
{
    let mut at = from;
    for i in 0..end {
        if ((bits >> (47 - i)) % 2 == 1) == new {
            let Some((description, next)) = step_at(message, received, at) else {
                return Err(Refusal::DescriptionPastReceived);
            };
            places[i] = at as u8;
            firsts[i] = is_first(description);
            at = next;
        }
    }
    Ok(at)
}

// The description that starts at a place, with the place behind it; none where it passes the received octets.
#[tactic(auto, unfolding(crate::specs::Inner::step))]
fn step_at(message: &[u8], received: usize, at: usize) -> Option<(Description, usize)>
    requires { (length message.now ≡ 88) × (received ≤ 88) }
    ensures { stepped_of result ≡ step message.now received at }
{
    if at >= received {
        return None;
    }
    if message[at] < 0x80 {
        return Some((schedule::told_at(message, at), at + 1));
    }
    if at + 1 >= received {
        return None;
    }
    Some((schedule::told_at(message, at), at + 2))
}

// Whether a slot repeats what is no first transmission in a slot below it. There is a place for each slot up to End.
fn has_false_repeat(message: &[u8], places: &[u8], firsts: &[bool; SLOTS]) -> bool
    requires { (length places.now ≤ 48) × Firsts message.now places.now firsts.now (length places.now) }
    ensures { result ≡ some_below (false_repeat (told_by message.now places.now)) (length places.now) }
{
    for (i, place) in places.iter().enumerate() {
        let told = schedule::told_at(message, *place as usize);
        if let Description::Repeat(number) = told {
            let n = number as usize;
            if n == 0 {
                return true;
            }
            if n > i {
                return true;
            }
            if !firsts[n - 1] {
                return true;
            }
        }
    }
    false
}

fn is_first(description: Description) -> bool
    ensures { result ≡ is_first (told_of description) }
{
    matches!(description, Description::First(_))
}
