// Checks the schedule messages of a log of blocks from a file or standard input beside two plan files, a line for each: cbcheck CURRENT PREVIOUS [FILE].
#![tactic(auto)]

ghost use Rattle.std.specs.Prelude.{◌≡◌, refl, ◌++◌};
ghost use Rattle.std.proofs.Common.{lit≤, lit<};
ghost use Rattle.refusals.specs.Number.{number_of};
ghost use Rattle.checker.specs.Coded.{checked_of};
ghost use Rattle.checker_plans.specs.Coded.{plans_of};
ghost use Rattle.lines.specs.Paper.{all_behind};
ghost use Rattle.cbcheck.specs.Paper.{numbers, names_untrue, rule_of, reason, said, line, line_of, lines};
ghost use Rattle.cbcheck.specs.Inner.{fresh_beside};

use arguments::Program;
use checker::SlotFault;
use checker_plans::Said;
use lines::Text;
use logs::Listing;
use plan::Fault;
use refusals::Refusal;
use sizes::{MESSAGE, SLOTS};
use std::io::{Input, Print};
use std::rt::{Env, Files};

// Room for the longest line of each piece of a chunk.
const ROOM: usize = 146432;

// The program, as its arguments are asked for and told.
const PROGRAM: Program<'static> = Program {
    name: b"cbcheck",
    usage: b"cbcheck: usage: cbcheck CURRENT PREVIOUS [FILE]\n",
    help: b"usage: cbcheck CURRENT PREVIOUS [FILE]\n\
        Checks the schedule messages of a log of blocks, FILE or standard input, beside two plan files, a line for each message.\n\
        A line has the number of the message's last block, 0 where the message is true or the number that refuses it,\n\
        the lowest untrue slot or 0, and the same in words.\n\
        A previous plan of no slots stands for none.\n",
    fewest: 3,
    most: 4,
};

// Stays a main of its own: what it works on is this program's.
fn main(rt: HostRuntime) {
    let output = rt.stdout();
    let errors = rt.stderr();
    if arguments::asked_to_work(&rt, &PROGRAM, &output, &errors) {
        check_named(&rt, &output, &errors);
    }
}

// Checks the log that the third argument names, or standard input, beside the plan files that the first two name.
fn check_named<R: Env + Files + Input>(rt: &R, output: &impl Print, errors: &impl Print) {
    let Some((current, previous)) = planfile::take_both(rt, errors, PROGRAM.name) else {
        return;
    };
    let checks = Checks {
        plans: checker_plans::beside(current, previous),
    };
    logs::list_named(rt, output, errors, PROGRAM.name, 3, b"", &checks);
}

// A line for each schedule message that is complete: what the checker answers beside two plans.
#[derive(Drop)]
struct Checks {
    plans: Result<Said, Fault>,
}

impl Listing<ROOM> for Checks {
    ghost line = { λ checks. line_of (fresh_beside (plans_of checks.plans)) };

    ghost all_lines = { λ checks. lines (fresh_beside (plans_of checks.plans)) };

    ghost wide = { 143 };

    ghost line_by_line = { λ _ _ _ _. refl };

    ghost fits = { lit≤ tt };

    ghost lendable = { lit< tt };

    fn put_line(&self, number: u64, answer: u32, message: &[u8; MESSAGE], lines: &mut Text) {
        if answer % 256 != 7 {
            return;
        }
        let received = (answer / 256) as usize;
        // Stays a fixed array: check_slots leaves a verdict on each slot, and a program holds no heap.
        let mut verdicts = [0u8; SLOTS];
        let checked = checker::check_slots(self.plans, message, received, &mut verdicts);
        put_checked(number, checked, &verdicts, lines);
    }
}

// Puts the line of what the checker answers to the message that a block completes, and what it leaves of the slots.
#[tactic(auto, unfolding(lines::specs::Paper::ascii, lines::specs::Paper::all_behind, crate::specs::Paper::said))]
fn put_checked(number: u64, checked: Result<(), SlotFault>, verdicts: &[u8], lines: &mut Text)
    ensures put { record { end = lines.new.end; text = lines.new.memory.now } ≡ all_behind (line number (record { checked = checked_of checked; verdicts = verdicts.now })) lines.old.end lines.old.memory.now }
    ensures same { lines.new.memory.ghost_name ≡ lines.old.memory.ghost_name }
{
    match checked {
        Ok(()) => {
            put_numbers(number, 0, 0, lines);
            lines.put(b"true\n");
        }
        Err(fault) => {
            let rule = rule_of(verdicts, fault.slot);
            put_refused(number, fault, rule, lines);
        }
    }
}

// The verdict on a slot, by its number; 0 where there is none.
// Stays a number, here and below: check_slots lends the verdicts as octets, of which 0 says that nothing is untrue.
fn rule_of(verdicts: &[u8], slot: usize) -> u8
    ensures { result ≡ rule_of verdicts.now slot }
{
    match slot {
        0 => 0,
        _ => verdicts.get(slot - 1).copied().unwrap_or(0),
    }
}

fn put_refused(number: u64, fault: SlotFault, rule: u8, lines: &mut Text)
    ensures put { record { end = lines.new.end; text = lines.new.memory.now } ≡ all_behind (numbers number (number_of fault.refusal) fault.slot ++ said (number_of fault.refusal) fault.slot rule) lines.old.end lines.old.memory.now }
    ensures same { lines.new.memory.ghost_name ≡ lines.old.memory.ghost_name }
{
    let answer = u64::from(u8::from(fault.refusal));
    put_numbers(number, answer, fault.slot as u64, lines);
    put_reason(fault, rule, lines);
    lines.put_octet(b'\n');
}

// Puts three numbers, with a space behind each.
#[tactic(auto, unfolding(lines::specs::Paper::all_behind))]
fn put_numbers(number: u64, answer: u64, slot: u64, lines: &mut Text)
    ensures put { record { end = lines.new.end; text = lines.new.memory.now } ≡ all_behind (numbers number answer slot) lines.old.end lines.old.memory.now }
    ensures same { lines.new.memory.ghost_name ≡ lines.old.memory.ghost_name }
{
    lines.put_marked(number, b' ');
    lines.put_marked(answer, b' ');
    lines.put_marked(slot, b' ');
}

// Whether a slot that is told untruly comes with a refusal.
fn names_untrue(fault: SlotFault) -> bool
    ensures { result ≡ names_untrue (number_of fault.refusal) fault.slot }
{
    fault.slot != 0 && matches!(fault.refusal, Refusal::Untrue)
}

// Puts why a message is refused: the slot that is told untruly and the rule that it breaks, or the words of the refusal.
#[tactic(auto, unfolding(lines::specs::Paper::ascii, lines::specs::Paper::all_behind, crate::specs::Paper::reason))]
fn put_reason(fault: SlotFault, rule: u8, lines: &mut Text)
    ensures put { record { end = lines.new.end; text = lines.new.memory.now } ≡ all_behind (reason (number_of fault.refusal) fault.slot rule) lines.old.end lines.old.memory.now }
    ensures same { lines.new.memory.ghost_name ≡ lines.old.memory.ghost_name }
{
    if !names_untrue(fault) {
        words::put_words(fault.refusal, lines);
        return;
    }
    lines.put(b"slot ");
    lines.put_number(fault.slot as u64);
    lines.put(b": ");
    words::put_rule(rule, lines);
}
