// Messages cut into blocks.
#![tactic(auto)]

ghost use Rattle.std.specs.Prelude.{◌≡◌, ◌<◌, ◌≤◌, length};
ghost use Rattle.block.specs.Paper.{sequence_code};
ghost use Rattle.block.specs.Coded.{kind_of};
ghost use Rattle.block_writer.specs.Paper.{type_of, blocks, written_blocks};
ghost use Rattle.block_writer.specs.Coded.{sent_of};

use block::{BLOCK, BLOCKS, Kind};
use refusals::Refusal;
use sizes::{CONTENT, MESSAGE};

// Writes the 88 octets of message as four blocks of 23 (000 3.1), marked as last from the block of the last used octet on.
// An output that is not 92 octets is refused as OutputLength, then a message that is not 88 as MessageLength, then used
// octets of 0 or over 88 as UsedOctets; a refusal leaves the output as it was.
#[tactic(auto, using(std::proofs::lemmas::Bool::Decides::nat_tests), unfolding(crate::specs::Paper::written_blocks))]
pub fn write_blocks(message: &[u8], kind: Kind, used: usize, out: &mut [u8]) -> Result<(), Refusal>
    ensures { sent_of result out.new ≡ written_blocks message.now (kind_of kind) used out.old }
{
    let Some(out) = out.as_mut_array::<BLOCKS>() else {
        return Err(Refusal::OutputLength);
    };
    let Ok(message) = <&[u8; MESSAGE]>::try_from(message) else {
        return Err(Refusal::MessageLength);
    };
    if used == 0 || used > MESSAGE {
        return Err(Refusal::UsedOctets);
    }
    put_blocks(message, kind, used, out);
    Ok(())
}

// The four blocks, over the output.
fn put_blocks(message: &[u8; MESSAGE], kind: Kind, used: usize, out: &mut [u8; BLOCKS])
    requires { used ≤ 88 }
    ensures { out.new ≡ blocks (kind_of kind) used message.now 4 }
{
    for i in 0..4 {
        out[BLOCK * i] = block_type(kind, used, i);
        octets::copy(
            &message[CONTENT * i..CONTENT * i + CONTENT],
            &mut out[BLOCK * i + 1..BLOCK * i + BLOCK],
        );
    }
}

// The type octet of block i, counted from 0: the discriminator, the last-block mark from the last used octet on, the code.
// Stays a division: it is done before the loop, and a product in each turn takes a register more, which some boards save first.
fn block_type(kind: Kind, used: usize, i: usize) -> u8
    requires { (used ≤ 88) × (i < 4) }
    ensures { result ≡ type_of (kind_of kind) used i }
{
    let code = sequence_code(kind, i);
    if (used + 21) / CONTENT <= i + 1 {
        return 0x30 + code;
    }
    0x20 + code
}

// The sequence code of block i, counted from 0.
fn sequence_code(kind: Kind, i: usize) -> u8
    requires { i < 4 }
    ensures { result ≡ sequence_code (kind_of kind) i }
{
    match (i, kind) {
        (0, Kind::Page) => 0,
        (0, Kind::Schedule) => 8,
        _ => i as u8,
    }
}
