// What the intake by value and the one on lent memory share: kinds of messages, proper states, and where a piece goes.
#![tactic(auto)]

ghost use Rattle.std.specs.Prelude.{◌≡◌};
ghost use Rattle.block.specs.Paper.{kind_number, all_blank, proper};
ghost use Rattle.block.specs.Inner.{place_of, state_with};
ghost use Rattle.block.specs.Coded.{kind_of, placed};

use refusals::Refusal;
use sizes::{CONTENT, FILLER, MESSAGE};

// 000 3.1: octets of a block, its type octet and its content.
pub const BLOCK: usize = 23;

// 000 3.1: octets of the four blocks of a message.
pub const BLOCKS: usize = 92;

// What a message is: a page (000 3.4) or a schedule message (000 3.5).
#[derive(Clone, Copy, Debug, PartialEq, Eq)]
pub enum Kind {
    Page,
    Schedule,
}

// The kind as a state holds it, where 0 is none.
impl From<Kind> for u8 {
    ghost from_gives = { λ kind n. n ≡ kind_number (kind_of kind) };

    fn from(kind: Kind) -> u8 {
        match kind {
            Kind::Page => 1,
            Kind::Schedule => 2,
        }
    }
}

// Whether octets are all 2B. All are looked at, so that the loop has no early way out.
fn is_blank(octets: &[u8]) -> bool
    ensures { result ≡ all_blank octets.now }
{
    let mut blank = true;
    for octet in octets {
        if *octet != FILLER {
            blank = false;
        }
    }
    blank
}

// Whether a state is one that start and intake leave: no kind and no blocks, or a kind (1, 2) and one to three blocks;
// and 88 octets, which are 2B behind those of the blocks taken.
// Stays numbers, kind and taken: C lends both as octets, and 3 to 255 are refused.
#[tactic(auto, using(std::proofs::lemmas::Bool::Decides::nat_tests), unfolding(crate::specs::Paper::proper))]
pub fn is_proper(kind: u8, taken: u8, octets: &[u8]) -> bool
    ensures { result ≡ proper (state_with kind taken octets.now) }
{
    if octets.len() != MESSAGE {
        return false;
    }
    match (kind, taken) {
        // Stays an arm of its own: joined with the next, which says the same, it costs 31 instructions of cb_intake.
        (0, 0) => is_blank(octets),
        (1 | 2, 1..=3) => is_blank(&octets[CONTENT * taken as usize..]),
        _ => false,
    }
}

// Where a piece goes: to the beginning of a message of a kind, or behind the blocks taken. The flag: it completes the
// message.
#[derive(Clone, Copy, Debug, PartialEq, Eq)]
pub enum Place {
    First(Kind, bool),
    Next(bool),
}

// Where a piece goes beside the number of blocks taken, from its type octet (000 3.3.1, Table 1): discriminator 01 in bits
// 7 and 6, the last-block mark in bit 5, the sequence code in bits 4 to 1; bit 8 is spare. It is refused as PieceLength,
// Discriminator, ReservedCode, NullCode or NotNext.
#[tactic(auto, using(std::proofs::lemmas::Bool::Decides::nat_tests), unfolding(crate::specs::Inner::place_of))]
pub fn place_of(taken: u8, piece: &[u8]) -> Result<Place, Refusal>
    ensures { placed result ≡ place_of taken piece.now }
{
    if piece.len() != BLOCK {
        return Err(Refusal::PieceLength);
    }
    let head = piece[0];
    if head / 32 % 4 != 1 {
        return Err(Refusal::Discriminator);
    }
    let last = head / 16 % 2 == 1;
    match head % 16 {
        0 => Ok(Place::First(Kind::Page, last)),
        8 => Ok(Place::First(Kind::Schedule, last)),
        15 => Err(Refusal::NullCode),
        4..=14 => Err(Refusal::ReservedCode),
        code if code != taken => Err(Refusal::NotNext),
        3 => Ok(Place::Next(true)),
        _ => Ok(Place::Next(last)),
    }
}
