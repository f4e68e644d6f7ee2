// The calls of `block_calls` for C: each calls the function of its name, and promises the same.
#![tactic(auto)]

ghost use Rattle.std.specs.Prelude.{◌≡◌};
ghost use Rattle.block_calls.specs.Paper.{blocks_call};

// Writes a page or a schedule message as four blocks: the number.
#[unsafe(no_mangle)]
pub extern "C" fn cb_write_blocks(
    message: &[u8],
    schedule: bool,
    used: usize,
    out: &mut [u8],
) -> u32
    ensures { record { returned = result; memory = out.new } ≡ blocks_call message.now schedule used out.old }
{
    block_calls::cb_write_blocks(message, schedule, used, out)
}
