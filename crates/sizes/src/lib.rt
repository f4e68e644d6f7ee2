// The sizes that pages and schedule messages share, and which numbers of octets can be received of them.
#![tactic(auto)]

ghost use Rattle.std.specs.Prelude.{◌≡◌};
ghost use Rattle.sizes.specs.Paper.{whole_blocks};

// 000 3.1: the octets of a block's content.
pub const CONTENT: usize = 22;

// 000 3.1: the octets of a message, those of four blocks.
pub const MESSAGE: usize = 88;

// 01 Intake, Schedule message: what stands where nothing was received or told.
pub const FILLER: u8 = 0x2B;

// 01 Schedule message: the slots of a schedule period at most.
pub const SLOTS: usize = 48;

// Whether so many octets are those of one to four blocks. What is received of a page or a schedule message must be, or it is refused as `ReceivedOctets`.
#[tactic(auto, unfolding(crate::specs::Paper::whole_blocks))]
pub fn whole_blocks(received: usize) -> bool
    ensures { result ≡ whole_blocks received }
{
    matches!(received, 22 | 44 | 66 | 88)
}
