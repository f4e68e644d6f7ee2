// What a plan and the plan before it say of each slot.
#![tactic(auto)]

ghost use Rattle.std.specs.Prelude.{◌≡◌, map, ◌≤◌, eqb, length};
ghost use Rattle.laws.specs.Search.{some, first_from};
ghost use Rattle.plan.specs.Coded.{entry_of, entries_of, plan_of};
ghost use Rattle.plan_slots.specs.Coded.{planned_of};
ghost use Rattle.plan_slots.specs.Inner.{none_planned, all_planned, said_by, Marked, Marks, searched, Says};

use page::PageName;
use plan::{Entry, Plan};
use sizes::SLOTS;

// What the plans say of a slot; where it is planned with no page, all but the kind is 0 or false.
// Stays a number: the kind is that of a plan's entry, which can be over 2 where `all_planned` is asked.
#[derive(Clone, Copy)]
pub struct Planned {
    pub kind: u8,
    // the low 15 bits of the page's identifier
    pub low: u16,
    // the lowest slot with the page, by its number
    pub lowest: u8,
    // whether the previous plan lacks the page
    pub fresh: bool,
}

// An entry as one number, so that a search through a plan compares once a slot.
fn mark(entry: &Entry) -> u64
    ensures { Marked result (entry_of entry.now) }
{
    let name = PageName {
        serial: entry.serial,
        id: entry.id,
        parameter: entry.parameter,
    };
    name.key() * 0x10000 + entry.kind as u64
}

// Writes the entries of a plan as numbers.
fn mark_all(entries: &[Entry; SLOTS], marks: &mut [u64])
    requires { length marks.old ≡ 48 }
    ensures { Marks marks.new (entries_of entries.now) 48 }
{
    for (i, entry) in entries.iter().enumerate() {
        marks[i] = mark(entry);
    }
}

// The place, counted from 1, of the first of some marks that is as given; 0 for none.
// Stays a number: 0 is document 01's own lowest slot of a page that a plan lacks, and Planned.lowest hands it on.
fn first_slot(marks: &[u64], mark: u64) -> u8
    requires { length marks.now ≤ 48 }
    ensures { result ≡ first_from (eqb mark) 1 marks.now }
{
    for (i, other) in marks.iter().enumerate() {
        if *other == mark {
            return i as u8 + 1;
        }
    }
    0
}

// What is said of a slot planned with no page.
// Stays a number, kind: as in Planned.
fn none_planned(kind: u8) -> Planned
    ensures { planned_of result ≡ none_planned kind }
{
    Planned {
        kind,
        low: 0,
        lowest: 0,
        fresh: false,
    }
}

// What is said of a slot by its entry and that entry's mark, among the marks of the plan and of the plan before it.
fn planned_by(entry: &Entry, mark: u64, current: &[u64], previous: &[u64]) -> Planned
    requires { (length current.now ≤ 48) × (length previous.now ≤ 48) }
    ensures { planned_of result ≡ said_by (entry_of entry.now) (first_from (eqb mark) 1 current.now) (some (eqb mark) previous.now) }
{
    if entry.kind != 2 {
        return none_planned(entry.kind);
    }
    Planned {
        kind: entry.kind,
        low: entry.id.0 % 0x8000,
        lowest: first_slot(current, mark),
        fresh: first_slot(previous, mark) == 0,
    }
}

// What is said of each slot that has a mark, by the marks of the plan and of the plan before it; of the others, what is said of an optional one.
fn said_by_marks(entries: &[Entry; SLOTS], current: &[u64], previous: &[u64]) -> [Planned; SLOTS]
    requires { (length current.now ≤ 48) × (length previous.now ≤ 48) }
    ensures { Says (searched (entries_of entries.now) current.now previous.now) result (length current.now) }
{
    let unused = none_planned(0);
    let mut planned = [unused; SLOTS];
    for (i, mark) in current.iter().enumerate() {
        planned[i] = planned_by(&entries[i], *mark, current, previous);
    }
    planned
}

// What a plan and the plan before it say of each slot; of those past the count, what is said of an optional one.
pub fn all_planned(current: Plan, previous: Plan) -> [Planned; SLOTS]
    ensures { map planned_of result ≡ all_planned (plan_of current) (plan_of previous) }
{
    let mut marks = [0u64; SLOTS];
    mark_all(&current.entries, &mut marks);
    let mut marks_before = [0u64; SLOTS];
    mark_all(&previous.entries, &mut marks_before);
    let count = current.count.min(SLOTS);
    let before = previous.count.min(SLOTS);
    said_by_marks(&current.entries, &marks[..count], &marks_before[..before])
}
