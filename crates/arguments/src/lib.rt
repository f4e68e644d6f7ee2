// What a program's arguments ask for, and what it says of itself.
#![tactic(auto)]

ghost use Rattle.std.specs.Prelude.{◌≡◌, List, ℕ};
ghost use Rattle.arguments.specs.Paper.{help_asked, asked_by};
ghost use Rattle.arguments.specs.Inner.{works};

use std::env::FillError;
use std::io::Print;
use std::rt::Env;

// What a program's arguments ask for.
#[derive(Clone, Copy, Debug, PartialEq, Eq)]
pub enum Asked {
    Work,
    Help,
    Usage,
}

// A program: its name, the line that says how it is used, as it is said on standard error, its help, whose first line says the same,
// and the number of arguments from fewest to most with which it works. The program's name counts as one.
#[derive(Clone, Copy)]
pub struct Program<'a> {
    pub name: &'a [u8],
    pub usage: &'a [u8],
    pub help: &'a [u8],
    pub fewest: usize,
    pub most: usize,
}

// How many arguments a program has, its name included.
pub fn count(rt: &impl Env) -> usize {
    for i in 0..usize::MAX {
        if let Err(FillError::NotPresent) = rt.arg(i, &mut []) {
            return i;
        }
    }
    usize::MAX
}

// Whether the one argument of a program is --help.
#[tactic(auto, using(std::proofs::lemmas::Bool::Decides::nat_tests), unfolding(crate::specs::Paper::help_asked))]
fn asks_help(count: usize, first: &[u8]) -> bool
    ensures { result ≡ help_asked count first.now }
{
    if count != 2 {
        return false;
    }
    first == b"--help".as_slice()
}

// What a program's arguments ask for, where it works with a number of them from fewest to most. The program's name counts as one.
pub fn asked_for(count: usize, first: &[u8], fewest: usize, most: usize) -> Asked
    ensures { result ≡ asked_by count first.now fewest most }
{
    if asks_help(count, first) {
        return Asked::Help;
    }
    if count < fewest {
        return Asked::Usage;
    }
    if most < count {
        return Asked::Usage;
    }
    Asked::Work
}

// Says how a program is used, and what it does where help is asked for. Answers whether the program is to work: nothing is said then.
// Each text is one write: a reader that goes after the first line makes no fault, and other programs' lines don't come in between.
pub fn tell(asked: Asked, program: &Program, output: &impl Print, errors: &impl Print) -> bool
    ensures { result ≡ works asked }
{
    match asked {
        Asked::Work => true,
        Asked::Help => {
            files::write_text(output, errors, program.name, program.help);
            false
        }
        Asked::Usage => {
            let _ = errors.write_all(program.usage);
            false
        }
    }
}

// Whether a program's arguments ask it to work. Where they don't, help or how it is used is said.
pub fn asked_to_work(
    rt: &impl Env,
    program: &Program,
    output: &impl Print,
    errors: &impl Print,
) -> bool
    ensures { (count : ℕ) × (first : List ℕ) × (result ≡ works (asked_by count first program.now.fewest program.now.most)) }
{
    let mut word = io::buffer();
    let length = rt.arg(1, &mut word).unwrap_or(0);
    let asked = asked_for(count(rt), &word[..length], program.fewest, program.most);
    tell(asked, program, output, errors)
}
