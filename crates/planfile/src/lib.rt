// Plan files that a program's arguments name. What is wrong with one is said in a line on standard error.
#![tactic(auto)]

ghost use Rattle.std.specs.Prelude.{◌≡◌, IfSome};
ghost use Rattle.plan.specs.Paper.{plan_number};
ghost use Rattle.plan.specs.Coded.{plan_of};
ghost use Rattle.planfile.specs.Inner.{taken_of, taken};

use plan::{Fault, Plan};
use std::io::{Print, Read};
use std::rt::{Env, Files};

// Says why a file is refused: by the entry that is named, or by the number's words.
fn say_why(errors: &impl Print, program: &[u8], about: &[u8], file: &[u8], fault: Fault) {
    let Fault { refusal, entry } = fault;
    // Stays an array: programs take no heap.
    let mut line = [0u8; refusal_lines::LINE];
    if entry == 0 {
        refusal_lines::say_refused(errors, program, about, refusal, &mut line);
    } else {
        let kind = plan_read::kind_of(file, entry);
        refusal_lines::say_entry(errors, program, about, refusal, entry, kind, &mut line);
    }
}

// Takes the plan of a file's octets.
#[tactic(auto, using(crate::proofs::Good::takes))]
fn take_octets(errors: &impl Print, program: &[u8], about: &[u8], file: &[u8]) -> Option<Plan>
    ensures { taken_of result ≡ taken file.now }
{
    let reading = plan_read::read_plan(file);
    let plan = reading.ok();
    if let Err(fault) = reading {
        say_why(errors, program, about, file, fault);
    }
    plan
}

// Takes the plan of an open file. A plan file has at most 294 octets; one more is read, so that a longer file is seen to be long.
fn take_open(
    errors: &impl Print,
    program: &[u8],
    about: &[u8],
    source: &mut impl Read,
    path: &[u8],
) -> Option<Plan>
    ensures { plan_number (taken_of result).plan ≡ 0 }
{
    // Stays an array: programs take no heap.
    let mut file = [0u8; 295];
    let got = files::fill(errors, program, path, source, &mut file);
    match got {
        Ok(count) => take_octets(errors, program, about, &file[..count]),
        Err(_) => None,
    }
}

// Takes the plan of the file that argument i names; none, where it can't be read or is refused. Whatever the file holds, the plan is a
// good one.
pub fn take<R: Env + Files>(
    rt: &R,
    errors: &impl Print,
    program: &[u8],
    about: &[u8],
    i: usize,
) -> Option<Plan>
    ensures { plan_number (taken_of result).plan ≡ 0 }
{
    let mut path = io::buffer();
    let mut opened = files::open_named(rt, errors, program, i, &mut path)?;
    take_open(
        errors,
        program,
        about,
        &mut opened.file,
        &path[..opened.length],
    )
}

// Takes the plans of the files that the first two arguments name: the current one, and the one before it.
pub fn take_both<R: Env + Files>(
    rt: &R,
    errors: &impl Print,
    program: &[u8],
) -> Option<(Plan, Plan)>
    ensures { IfSome result (λ plans. (plan_number (plan_of plans.0) ≡ 0) × (plan_number (plan_of plans.1) ≡ 0)) }
{
    let current = take(rt, errors, program, b"the current plan: ", 1)?;
    let previous = take(rt, errors, program, b"the previous plan: ", 2)?;
    Some((current, previous))
}
