// Writes the four blocks of the schedule message of a plan file, beside the plan file before it: cbwrite CURRENT PREVIOUS BEGIN.
#![tactic(auto)]

ghost use Rattle.std.specs.Prelude.{◌≡◌};
ghost use Rattle.block_writer.specs.Coded.{sent_of};
ghost use Rattle.plan.specs.Coded.{plan_of};
ghost use Rattle.cbwrite.specs.Paper.{composed};
ghost use Rattle.cbwrite.specs.Inner.{typed};

use arguments::{Asked, Program};
use block::Kind;
use plan::Plan;
use refusals::Refusal;
use sizes::MESSAGE;
use std::io::Print;
use std::rt::{Env, Files};

// Every Begin from here on is refused alike, so a longer one is read as this.
const MOST: usize = 1000;

// The program, as its arguments are asked for and told.
const PROGRAM: Program<'static> = Program {
    name: b"cbwrite",
    usage: b"cbwrite: usage: cbwrite CURRENT PREVIOUS BEGIN\n",
    help: b"usage: cbwrite CURRENT PREVIOUS BEGIN\n\
        Writes the schedule message of a plan file, beside the plan file before it, to standard output.\n\
        BEGIN is the message's Begin in decimal, one of the slots of the current plan.\n\
        A previous plan of no slots stands for none. What is written is four blocks of 23 octets, which cblist and cbcheck read.\n",
    fewest: 4,
    most: 4,
};

// Stays a main of its own: what it works on is this program's.
fn main(rt: HostRuntime) {
    let output = rt.stdout();
    let errors = rt.stderr();
    if arguments::asked_to_work(&rt, &PROGRAM, &output, &errors) {
        write_named(&rt, &output, &errors);
    }
}

// Writes the blocks for the three arguments.
fn write_named<R: Env + Files>(rt: &R, output: &impl Print, errors: &impl Print) {
    let mut typed = io::buffer();
    let Ok(length) = rt.arg(3, &mut typed) else {
        arguments::tell(Asked::Usage, &PROGRAM, output, errors);
        return;
    };
    let begin = begin_of(&typed[..length]);
    match begin {
        Some(number) => write_plans(rt, output, errors, number, &typed[..length]),
        None => {
            arguments::tell(Asked::Usage, &PROGRAM, output, errors);
        }
    }
}

// Begin in decimal; none of an argument that is not digits alone, or has no octet.
fn begin_of(digits: &[u8]) -> Option<usize>
    ensures { result ≡ typed digits.now }
{
    if digits.len() == 0 {
        return None;
    }
    let mut number = 0;
    for digit in digits {
        if *digit < b'0' {
            return None;
        }
        if *digit > b'9' {
            return None;
        }
        number = (10 * number + (*digit - b'0') as usize).min(MOST);
    }
    Some(number)
}

// Writes the blocks of the plan files that the first two arguments name, with Begin as it was typed.
fn write_plans<R: Env + Files>(
    rt: &R,
    output: &impl Print,
    errors: &impl Print,
    begin: usize,
    typed: &[u8],
) {
    let Some((current, previous)) = planfile::take_both(rt, errors, PROGRAM.name) else {
        return;
    };
    write(output, errors, current, previous, begin, typed);
}

fn write(
    output: &impl Print,
    errors: &impl Print,
    current: Plan,
    previous: Plan,
    begin: usize,
    typed: &[u8],
) {
    // Stays an array: programs take no heap.
    let mut blocks = [0u8; 92];
    let answer = compose(current, previous, begin, &mut blocks);
    match answer {
        Ok(()) => {
            files::write_text(output, errors, b"cbwrite", &blocks);
        }
        Err(refusal) => say_why(errors, refusal, typed, current.count),
    }
}

// Says why nothing was written. A wrong Begin is told as it was typed.
fn say_why(errors: &impl Print, refusal: Refusal, typed: &[u8], count: usize) {
    // Stays an array: programs take no heap.
    let mut line = [0u8; files::NAMES];
    if let Refusal::BeginOrEnd = refusal {
        refusal_lines::say_begin(errors, b"cbwrite", typed, count, &mut line);
    } else {
        refusal_lines::say_refused(errors, b"cbwrite", b"", refusal, &mut line);
    }
}

// The blocks of the schedule message of a plan, or a refusal.
fn compose(current: Plan, previous: Plan, begin: usize, out: &mut [u8]) -> Result<(), Refusal>
    ensures { sent_of result out.new ≡ composed (plan_of current) (plan_of previous) begin out.old }
{
    // Stays an array: programs take no heap.
    let mut message = [0u8; MESSAGE];
    // Stays a match: the entry of a fault is dropped here, where it can be seen.
    let answer = sender::write_schedule(current, previous, begin, &mut message);
    match answer {
        Ok(used) => block_writer::write_blocks(&message, Kind::Schedule, used, out),
        Err(fault) => Err(fault.refusal),
    }
}
