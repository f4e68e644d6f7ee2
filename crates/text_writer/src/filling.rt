// Septets packed low bits first, each as it comes: an octet is written when it is full.
ghost use Rattle.std.specs.Prelude.{◌≡◌, ◌-◌, replicate};
ghost use Rattle.text.specs.Paper.{cr, packed, septets, septets_of, unpadded};
ghost use Rattle.text_writer.specs.Inner.{Addable, AddableAll, Spellable, Textual, Writable, added, added_all, unfilled};

use crate::septets::Septets;
use text::PLACES;

// An octet that is being filled: the bits that it has, what the lowest bit of the next septet counts in it, and its place.
#[derive(Clone, Copy)]
struct Filling {
    held: u32,
    weight: u32,
    at: usize,
}

// Adds a septet: an empty octet only takes it in, any other one is full then.
#[tactic(auto, unfolding(crate::specs::Inner::added))]
fn add(filling: Filling, septet: u8, octets: &mut [u8]) -> Filling
    requires { Addable filling septet octets.old }
    ensures { record { filling = result; octets = octets.new } ≡ added filling septet octets.old }
{
    let at = filling.at;
    if filling.weight == 1 {
        return Filling {
            held: septet as u32,
            weight: 128,
            at,
        };
    }
    let word = filling.held + septet as u32 * filling.weight;
    octets[at] = (word % 256) as u8;
    Filling {
        held: word / 256,
        weight: filling.weight / 2,
        at: at + 1,
    }
}

// Adds the septets of a character: its own, or 1B and that of the extension table.
fn add_character(table: Septets<'_>, code: u16, filling: Filling, octets: &mut [u8]) -> Filling
    requires { Spellable code filling octets.old }
    ensures { record { filling = result; octets = octets.new } ≡ added_all (septets_of code) filling octets.old }
{
    let own = table.of(code);
    if own < 128 {
        return add(filling, own, octets);
    }
    let begun = add(filling, 0x1B, octets);
    let paired = alphabet::pair_septet(code);
    add(begun, paired, octets)
}

// Adds the septets of each character, from the first octet on.
fn add_text(table: Septets<'_>, text: &[u16], octets: &mut [u8]) -> Filling
    requires { Textual text.now octets.old }
    ensures { record { filling = result; octets = octets.new } ≡ added_all (unpadded text.now) unfilled octets.old }
{
    let mut filling = Filling {
        held: 0,
        weight: 1,
        at: 0,
    };
    for code in text {
        filling = add_character(table, *code, filling, octets);
    }
    filling
}

// Adds the CRs that follow so many septets.
// Stays a count: of septets, and not of octets.
fn add_padding(count: usize, begun: Filling, octets: &mut [u8]) -> Filling
    requires { AddableAll (replicate (93 - count) cr) begun octets.old }
    ensures { record { filling = result; octets = octets.new } ≡ added_all (replicate (93 - count) cr) begun octets.old }
{
    let mut filling = begun;
    for _ in count..PLACES {
        filling = add(filling, 0x0D, octets);
    }
    filling
}

// Packs a text and its padding into 82 octets. The bits of the last octet that no septet has are 0.
// Stays a count beside the text: it is of septets, of which a pair has two.
pub(crate) fn pack(table: Septets<'_>, text: &[u16], count: usize, octets: &mut [u8])
    requires { Writable text.now count 82 octets.old }
    ensures { octets.new ≡ packed (septets text.now) }
{
    let begun = add_text(table, text, octets);
    let padded = add_padding(count, begun, octets);
    add(padded, 0, octets);
}
