// The entry for C that writes a page or a schedule message as blocks.
#![tactic(auto)]

ghost use Rattle.std.specs.Prelude.{◌≡◌};
ghost use Rattle.block.specs.Coded.{kind_of};
ghost use Rattle.block_calls.specs.Paper.{kind_if, blocks_call};

use block::Kind;

// The kind that a caller tells.
// Stays a function: as an `if` in the call below it costs 8 instructions more, since the call is doubled.
fn kind_of(schedule: bool) -> Kind
    ensures { kind_of result ≡ kind_if schedule }
{
    if schedule {
        return Kind::Schedule;
    }
    Kind::Page
}

// Writes a page or, where schedule is set, a schedule message as four blocks: the number.
pub fn cb_write_blocks(message: &[u8], schedule: bool, used: usize, out: &mut [u8]) -> u32
    ensures { record { returned = result; memory = out.new } ≡ blocks_call message.now schedule used out.old }
{
    let kind = kind_of(schedule);
    let answer = block_writer::write_blocks(message, kind, used, out);
    match answer {
        Ok(()) => 0,
        Err(refusal) => u32::from(u8::from(refusal)),
    }
}
