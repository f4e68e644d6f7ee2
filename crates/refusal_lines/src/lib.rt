// Lines on standard error that say what refused something.
#![tactic(auto)]

ghost use Rattle.std.specs.Prelude.{◌≡◌};
ghost use Rattle.refusals.specs.Number.{number_of};
ghost use Rattle.lines.specs.Paper.{all_behind};
ghost use Rattle.refusal_lines.specs.Paper.{numbered, refused, begin_refused, wrong_entry, entry_refused};

use lines::Text;
use refusals::Refusal;
use std::io::Print;

// Room for the line of a refusal.
pub const LINE: usize = 200;

// Puts a line on a refusal: a program, the number, what it is about, and the words. A part that does not fit is left out.
#[tactic(auto, unfolding(lines::specs::Paper::ascii, lines::specs::Paper::all_behind))]
fn put_refused(program: &[u8], about: &[u8], refusal: Refusal, line: &mut Text)
    ensures put { record { end = line.new.end; text = line.new.memory.now } ≡ all_behind (refused program.now about.now (number_of refusal)) line.old.end line.old.memory.now }
    ensures same { line.new.memory.ghost_name ≡ line.old.memory.ghost_name }
{
    put_named(program, refusal, line);
    line.put(about);
    words::put_words(refusal, line);
    line.put(b"\n");
}

// Puts the name of a program and the number of a refusal.
fn put_named(program: &[u8], refusal: Refusal, line: &mut Text)
    ensures put { record { end = line.new.end; text = line.new.memory.now } ≡ all_behind (numbered program.now (number_of refusal)) line.old.end line.old.memory.now }
    ensures same { line.new.memory.ghost_name ≡ line.old.memory.ghost_name }
{
    line.put(program);
    line.put(b": refused by ");
    line.put_number(u64::from(u8::from(refusal)));
    line.put(b": ");
}

// Says on standard error what refused something, in a line that is made in lent memory. Answers the line's length.
// Stays beside the two others that say a line: each has a line of its own, and one for all would take what makes it as a closure.
pub fn say_refused(
    errors: &impl Print,
    program: &[u8],
    about: &[u8],
    refusal: Refusal,
    text: &mut [u8],
) -> usize
    ensures { record { end = result; text = text.new } ≡ all_behind (refused program.now about.now (number_of refusal)) 0 text.old }
{
    let mut line = Text {
        memory: text,
        end: 0,
    };
    put_refused(program, about, refusal, &mut line);
    let _ = errors.write_all(line.as_bytes());
    line.end
}

// Puts a line on a Begin that is none of the current plan's slots: a program, the number, Begin as it was given, and how many slots there are.
fn put_begin(program: &[u8], begin: &[u8], count: usize, line: &mut Text)
    ensures put { record { end = line.new.end; text = line.new.memory.now } ≡ all_behind (begin_refused program.now begin.now count) line.old.end line.old.memory.now }
    ensures same { line.new.memory.ghost_name ≡ line.old.memory.ghost_name }
{
    put_named(program, Refusal::BeginOrEnd, line);
    line.put(b"Begin ");
    line.put(begin);
    line.put(b" is not 1 to ");
    line.put_number(count as u64);
    line.put(b", the slots of the current plan\n");
}

// Says on standard error that a Begin is none of the current plan's slots, in a line that is made in lent memory. Answers the line's length.
pub fn say_begin(
    errors: &impl Print,
    program: &[u8],
    begin: &[u8],
    count: usize,
    text: &mut [u8],
) -> usize
    ensures { record { end = result; text = text.new } ≡ all_behind (begin_refused program.now begin.now count) 0 text.old }
{
    let mut line = Text {
        memory: text,
        end: 0,
    };
    put_begin(program, begin, count, &mut line);
    let _ = errors.write_all(line.as_bytes());
    line.end
}

// Puts what is wrong with a bad entry, by its kind.
// Stays a number, here and below: an entry is refused for a kind that is none of 0, 1, 2, and `say_entry` promises the line that tells it.
#[tactic(auto, unfolding(lines::specs::Paper::ascii, lines::specs::Paper::all_behind))]
fn put_wrong(kind: u8, line: &mut Text)
    ensures put { record { end = line.new.end; text = line.new.memory.now } ≡ all_behind (wrong_entry kind) line.old.end line.old.memory.now }
    ensures same { line.new.memory.ghost_name ≡ line.old.memory.ghost_name }
{
    match kind {
        0 => line.put(b"an optional slot with octets of a page\n"),
        1 | 2 => line.put(b"an advised slot with octets of a page\n"),
        _ => {
            line.put(b"kind ");
            line.put_number(u64::from(kind));
            line.put(b" is none of 0, 1, 2\n");
        }
    }
}

// Puts a line on an entry of a plan: a program, the number, which plan it is, the entry, and what is wrong with it.
fn put_entry(program: &[u8], about: &[u8], refusal: Refusal, entry: u8, kind: u8, line: &mut Text)
    ensures put { record { end = line.new.end; text = line.new.memory.now } ≡ all_behind (entry_refused program.now about.now (number_of refusal) entry kind) line.old.end line.old.memory.now }
    ensures same { line.new.memory.ghost_name ≡ line.old.memory.ghost_name }
{
    put_named(program, refusal, line);
    line.put(about);
    line.put(b"entry ");
    line.put_number(u64::from(entry));
    line.put(b": ");
    put_wrong(kind, line);
}

// Says on standard error what is wrong with an entry of a plan, in a line that is made in lent memory. Answers the line's length.
pub fn say_entry(
    errors: &impl Print,
    program: &[u8],
    about: &[u8],
    refusal: Refusal,
    entry: u8,
    kind: u8,
    text: &mut [u8],
) -> usize
    ensures { record { end = result; text = text.new } ≡ all_behind (entry_refused program.now about.now (number_of refusal) entry kind) 0 text.old }
{
    let mut line = Text {
        memory: text,
        end: 0,
    };
    put_entry(program, about, refusal, entry, kind, &mut line);
    let _ = errors.write_all(line.as_bytes());
    line.end
}
