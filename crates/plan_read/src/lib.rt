// Plan files read.
#![tactic(auto)]

ghost use Rattle.std.specs.Prelude.{◌≡◌, ◌++◌, ◌+◌, ◌*◌, ◌-◌, ◌≤◌, length, get_or, drop, replicate};
ghost use Rattle.page.specs.Paper.{octet};
ghost use Rattle.plan.specs.Paper.{free};
ghost use Rattle.plan.specs.Coded.{entry_of, entries_of};
ghost use Rattle.plan_read.specs.Paper.{is_marked, entry_in, entries_in, read_plan};
ghost use Rattle.plan_read.specs.Coded.{reading_of};
ghost use Rattle.plan_read.specs.Inner.{number_in, front_number};

use page::{MessageId, Serial};
use plan::{Entry, Fault, Plan};
use refusals::Refusal;
use sizes::SLOTS;

// 01 The plan: the octets of a file before its entries.
pub const FRONT: usize = 6;

// 01 The plan: the octets of an entry.
pub const ENTRY: usize = 6;

// The 16 bits, high octet first, at a place of the file.
fn sixteen_at(file: &[u8], at: usize) -> u16
    requires { at + 2 ≤ length file.now }
    ensures { result ≡ get_or file.now at 0 * 256 + get_or file.now (at + 1) 0 }
{
    page::joined(file[at], file[at + 1])
}

// CBP in ASCII.
fn is_marked(file: &[u8]) -> bool
    requires { 6 ≤ length file.now }
    ensures { result ≡ is_marked file.now }
{
    file[0] == b'C' && file[1] == b'B' && file[2] == b'P'
}

// Whether a file is good up to its entries and has as many octets as its count asks for, and if not why: the tests of 01, Order.
fn front_answer(file: &[u8]) -> Result<(), Refusal>
    ensures { number_in result ≡ front_number file.now }
{
    if file.len() < FRONT {
        return Err(Refusal::PlanLength);
    }
    if !is_marked(file) {
        return Err(Refusal::PlanMark);
    }
    if sixteen_at(file, 3) != 1 {
        return Err(Refusal::PlanVersion);
    }
    let count = file[5] as usize;
    if count > SLOTS {
        return Err(Refusal::PlanLength);
    }
    if file.len() != FRONT + ENTRY * count {
        return Err(Refusal::PlanLength);
    }
    Ok(())
}

// The entry whose six octets start at a place of the file.
fn entry_at(file: &[u8], at: usize) -> Entry
    requires { at + 6 ≤ length file.now }
    ensures { entry_of result ≡ entry_in (drop at file.now) }
{
    Entry {
        kind: file[at],
        serial: Serial(sixteen_at(file, at + 1)),
        id: MessageId(sixteen_at(file, at + 3)),
        parameter: file[at + 5],
    }
}

// The entries of a file, with optional ones after them.
fn entries_of(file: &[u8], count: usize) -> [Entry; SLOTS]
    requires { (count ≤ 48) × (6 + 6 * count ≤ length file.now) }
    ensures { entries_of result ≡ entries_in count (drop 6 file.now) ++ replicate (48 - count) free }
{
    let unused = plan::empty_plan();
    let mut entries = unused.entries;
    for i in 0..count {
        entries[i] = entry_at(file, FRONT + ENTRY * i);
    }
    entries
}

// Reads a plan file (docs/FORMATS.md), or says why it is refused and which entry is named.
pub fn read_plan(file: &[u8]) -> Result<Plan, Fault>
    ensures { reading_of result ≡ read_plan file.now }
{
    front_answer(file)?;
    let count = file[5] as usize;
    let plan = Plan {
        count,
        entries: entries_of(file, count),
    };
    // Stays a test and no `?`: must-fail/entry_of_the_plan_dropped changes what it hands on.
    let answer = plan::plan_answer(plan);
    if let Err(fault) = answer {
        return Err(fault);
    }
    Ok(plan)
}

// The octet where the kind of an entry stands in a file, entries counted from 1; 0 past the file's end. The front is as long as an entry, so
// entry 0 is the front.
// Stays a number, and 0 past the end: the contract's `octet` is, and the octet can be a kind that is refused.
pub fn kind_of(file: &[u8], entry: u8) -> u8
    ensures { result ≡ octet file.now (6 * entry + 1) }
{
    let at = ENTRY * entry as usize;
    file.get(at).copied().unwrap_or(0)
}
