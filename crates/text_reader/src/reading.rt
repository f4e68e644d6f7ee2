// Septets read as characters, one after another.
ghost use Rattle.std.specs.Prelude.{◌≡◌, ◌≤◌, ◌<◌, map, length, take};
ghost use Rattle.alphabet.specs.Paper.{code_point};
ghost use Rattle.text_reader.specs.Inner.{Next, Read, Remain, escaping};

use crate::points::Points;

// A character, whether 1B stood before its septet, and the place after it.
#[derive(Clone, Copy)]
struct Decoded {
    point: u16,
    // Stays a bool beside a value: the character has a code point either way.
    escaped: bool,
    after: usize,
}

// The character at a place: one septet's, or that of 1B and the septet after it.
fn character(table: Points<'_>, septets: &[u8], i: usize) -> Decoded
    requires { i < length septets.now }
    ensures { Next septets.now i result }
{
    let septet = septets[i];
    if septet != 0x1B {
        return Decoded {
            point: table.of(septet),
            escaped: false,
            after: i + 1,
        };
    }
    if i + 1 == septets.len() {
        return Decoded {
            point: 0x20,
            escaped: false,
            after: i + 1,
        };
    }
    let paired = septets[i + 1];
    Decoded {
        point: table.of_pair(paired),
        escaped: true,
        after: i + 2,
    }
}

// How many of the first characters are left when the CRs at their end are dropped, but none before a place.
fn without_crs(text: &[u16], floor: usize, end: usize) -> usize
    requires { (floor ≤ end) × (end ≤ length text.now) }
    ensures { Remain text.now floor end result }
{
    for n in (floor..end).rev() {
        if text[n] != 0x0D {
            return n + 1;
        }
    }
    floor
}

// Writes the characters of septets one after another, and answers how many are left when the CRs at the end are dropped. None
// is dropped that was escaped, and none before it.
fn read_each(table: Points<'_>, septets: &[u8], text: &mut [u16]) -> usize
    requires { length septets.now ≤ length text.old }
    ensures { Read septets.now result text.new }
{
    let mut at = 0;
    let mut floor = 0;
    let mut i = 0;
    // Stays a loop by index: the step is one or two septets.
    while i < septets.len() {
        let next = character(table, septets, i);
        text[at] = next.point;
        at += 1;
        if next.escaped {
            floor = at;
        }
        i = next.after;
    }
    without_crs(text, floor, at)
}

// Whether 1B is among some septets. The loop has no early way out, so that the compiler can take many at once.
// Stays a loop: `any` takes four times its instructions, and one search with a closure for all is no plainer at its callers.
#[tactic(auto, using(crate::proofs::Nexts::escape_steps))]
fn has_escape(septets: &[u8]) -> bool
    ensures { result ≡ escaping septets.now }
{
    let mut found = false;
    for septet in septets {
        if *septet == 0x1B {
            found = true;
        }
    }
    found
}

// Writes the character of each septet.
fn put_points(table: Points<'_>, septets: &[u8], text: &mut [u16])
    requires { length septets.now ≤ length text.old }
    ensures { take (length septets.now) text.new ≡ map code_point septets.now }
{
    for (i, septet) in septets.iter().enumerate() {
        text[i] = table.of(*septet);
    }
}

// Writes the characters of septets, and answers how many are left without the CRs at the end. Where there is no 1B, as in most
// pages, each septet is a character.
pub(crate) fn read(table: Points<'_>, septets: &[u8], text: &mut [u16]) -> usize
    requires { length septets.now ≤ length text.old }
    ensures { Read septets.now result text.new }
{
    if has_escape(septets) {
        return read_each(table, septets, text);
    }
    put_points(table, septets, text);
    without_crs(text, 0, septets.len())
}
