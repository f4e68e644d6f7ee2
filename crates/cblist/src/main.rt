// Lists a log of blocks from a file or standard input: the number of each, the intake's answer, and the octets received.
#![tactic(auto)]

ghost use Rattle.std.specs.Prelude.{◌≡◌, refl, ◌/◌, ◌%◌};
ghost use Rattle.std.proofs.Common.{lit≤, lit<};
ghost use Rattle.lines.specs.Paper.{all_behind};
ghost use Rattle.cblist.specs.Paper.{line, line_of, lines};

use arguments::Program;
use lines::Text;
use logs::Listing;
use sizes::MESSAGE;

// Room for the longest line of each piece of a chunk.
const ROOM: usize = 64512;

// The program, as its arguments are asked for and told.
const PROGRAM: Program<'static> = Program {
    name: b"cblist",
    usage: b"cblist: usage: cblist [FILE]\n",
    help: b"usage: cblist [FILE]\n\
        Lists a log of blocks, FILE or standard input: 23 octets are a block, and a shorter tail is a piece too.\n\
        A line has the block's number, the intake's answer, and the octets received where a message is complete, 0 otherwise.\n\
        Answers: 0 page complete, 1 block taken, 7 schedule message complete; refused: 2 not 23 octets, 3 discriminator not 01,\n\
        4 reserved code, 5 null block, 6 not the next block of its message.\n",
    fewest: 1,
    most: 2,
};

// Stays a main of its own: what it works on is this program's.
fn main(rt: HostRuntime) {
    let output = rt.stdout();
    let errors = rt.stderr();
    if arguments::asked_to_work(&rt, &PROGRAM, &output, &errors) {
        logs::list_named(
            &rt,
            &output,
            &errors,
            PROGRAM.name,
            1,
            b"block answer octets\n",
            &Blocks,
        );
    }
}

// A line for each block.
struct Blocks;

impl Listing<ROOM> for Blocks {
    ghost line = { λ _. line_of };

    ghost all_lines = { λ _. lines };

    ghost wide = { 63 };

    ghost line_by_line = { λ _ _ _ _. refl };

    ghost fits = { lit≤ tt };

    ghost lendable = { lit< tt };

    fn put_line(&self, number: u64, answer: u32, _message: &[u8; MESSAGE], lines: &mut Text) {
        put_line(number, answer, lines);
    }
}

// Puts the line of a block behind the lines so far.
#[tactic(auto, unfolding(lines::specs::Paper::all_behind))]
fn put_line(number: u64, returned: u32, lines: &mut Text)
    ensures put { record { end = lines.new.end; text = lines.new.memory.now } ≡ all_behind (line number (returned % 256) (returned / 256)) lines.old.end lines.old.memory.now }
    ensures same { lines.new.memory.ghost_name ≡ lines.old.memory.ghost_name }
{
    lines.put_marked(number, b' ');
    lines.put_marked((returned % 256) as u64, b' ');
    lines.put_marked((returned / 256) as u64, b'\n');
}
