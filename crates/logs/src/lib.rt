// Logs: read in chunks, taken in piece by piece, and listed by what a program puts for each answer.
#![tactic(auto)]

ghost use Rattle.std.specs.Prelude.{◌≡◌, true, List, ℕ, ◌+◌, ◌*◌, ◌/◌, ◌≤◌, ◌<◌, min, length, take};
ghost use Rattle.block.specs.Paper.{Held, Given, start};
ghost use Rattle.block_history.specs.Claims.{after};
ghost use Rattle.firmware.specs.Paper.{lent, held_in};
ghost use Rattle.files.specs.Inner.{filled};
ghost use Rattle.lines.specs.Inner.{Puts};
ghost use Rattle.logs.specs.Paper.{cut, listing};
ghost use Rattle.logs.specs.Inner.{moved_on, ending_of, chunk_of, Reads, Answers, Continues};

use block::BLOCK;
use files::ReadFault;
use firmware::STATE;
use lines::Text;
use sizes::MESSAGE;
use std::io::{Input, Print, Read};
use std::rt::{Env, Files};

// A whole chunk of a log: 1,024 pieces.
pub const WHOLE: usize = 23552;

// No log has so many pieces.
pub const LAST: u64 = 1000000000000000000;

// How a chunk ends: the log may go on behind it, it is the last, or a read failed.
#[derive(Clone, Copy)]
pub enum Ending {
    More,
    Last,
    Fault,
}

// A chunk that was read: how many octets it has, the number of the piece behind it, and how it ends.
#[derive(Clone, Copy)]
pub struct Chunk {
    pub octets: usize,
    pub next: u64,
    pub ending: Ending,
}

// A state for the intake, as after start.
pub fn started() -> [u8; STATE]
    ensures { result ≡ lent start }
{
    // Stays memory that is lent: cb_start writes it.
    let mut state = [0u8; STATE];
    firmware::cb_start(&mut state);
    state
}

// Reads the chunk of a log whose first piece has a number. A read that fails in mid-piece is no tail: only the pieces before it are kept.
pub fn read_chunk(
    errors: &impl Print,
    program: &[u8],
    name: &[u8],
    file: &mut impl Read,
    number: u64,
    log: &mut [u8; WHOLE],
) -> Chunk
    ensures { Reads number log.new result }
{
    let got = files::fill(errors, program, name, file, log);
    chunk_of(got, number, log)
}

// The chunk that reading gave.
fn chunk_of(got: Result<usize, ReadFault>, number: u64, log: &[u8]) -> Chunk
    requires { filled got ≤ length log.now }
    ensures { result ≡ chunk_of got number log.now }
{
    match got {
        Ok(octets) => Chunk {
            octets,
            next: moved_on(number, &log[..octets]),
            ending: ending_of(octets),
        },
        Err(fault) => {
            let whole = fault.octets - fault.octets % 23;
            Chunk {
                octets: whole,
                next: moved_on(number, &log[..whole]),
                ending: Ending::Fault,
            }
        }
    }
}

// How a chunk ends that was read without a fault.
fn ending_of(octets: usize) -> Ending
    ensures { result ≡ ending_of octets }
{
    if octets == WHOLE {
        return Ending::More;
    }
    Ending::Last
}

// The number of the piece behind a chunk whose first piece has a number; it stops at the last.
#[tactic(auto, using(crate::proofs::Pieces::length_cut), unfolding(crate::specs::Inner::moved_on))]
pub fn moved_on(number: u64, chunk: &[u8]) -> u64
    ensures { result ≡ moved_on number chunk.now }
{
    let count = chunk.len().div_ceil(BLOCK) as u64;
    number.saturating_add(count).min(LAST)
}

// Writes the lines of a chunk, and answers whether a chunk is to follow.
pub fn write_chunk(
    output: &impl Print,
    errors: &impl Print,
    program: &[u8],
    chunk: Chunk,
    text: &[u8],
) -> bool
    ensures { (result ≡ true → chunk.ending ≡ Ending.More) × (length text.now ≡ 0 → chunk.ending ≡ Ending.More → result ≡ true) }
{
    if !files::write_text(output, errors, program, text) {
        return false;
    }
    let ending = chunk.ending;
    match ending {
        Ending::More => true,
        Ending::Last => false,
        Ending::Fault => false,
    }
}

// Where the piece at a place of a log ends.
pub fn piece_end(at: usize, end: usize) -> usize
    ensures { result ≡ min (at + 23) end }
{
    if end <= at {
        return end;
    }
    if 23 < end - at {
        return at + 23;
    }
    end
}

// What a program puts for the answers to the pieces of a log. The lines of a whole chunk have room in so many octets.
pub trait Listing<const ROOM: usize> {
    // The line of a numbered answer.
    ghost line: { Self → ℕ → Given → List ℕ };

    // The lines of pieces taken in order from a state, the first of them with a number: those of their answers, one behind the other.
    ghost all_lines: { Self → Held → ℕ → List (List ℕ) → List ℕ };

    // The octets of the longest line.
    ghost wide: { ℕ };

    // Puts the line of a piece's answer behind the lines so far. The number is the piece's, the answer that of the intake's
    // call, and the message what the call left in its output.
    // Stays apart, number, answer and lines: a line has the two numbers as they come, and puts them one by one.
    fn put_line(&self, number: u64, answer: u32, message: &[u8; MESSAGE], lines: &mut Text)
        requires { ((g : Given) × Answers g answer message.now) × (lines.old.end + wide ≤ length lines.old.memory.now) }
        ensures put { (g : Given) → Answers g answer message.now → Puts (line self.now number g) wide lines.old.end lines.old.memory.now lines.new.memory.now lines.new.end }
        ensures size { length lines.new.memory.now ≡ length lines.old.memory.now }
        ensures same { lines.new.memory.ghost_name ≡ lines.old.memory.ghost_name };

    ghost line_by_line: { (s : Self) (h : Held) (n : ℕ) (ps : List (List ℕ)) → all_lines s h n ps ≡ listing (line s) h n ps };

    ghost fits: { 1024 * wide ≤ ROOM };

    // Memory has fewer than 2^63 octets.
    ghost lendable: { ROOM < 9223372036854775808 };
}

// Lists the log that argument i names, or standard input: a heading, and then the lines of its pieces.
pub fn list_named<R: Env + Files + Input, L: Listing<ROOM>, const ROOM: usize>(
    rt: &R,
    output: &impl Print,
    errors: &impl Print,
    program: &[u8],
    i: usize,
    heading: &[u8],
    form: &L,
) {
    // Stays memory of a fixed size, here and below: a program holds no more for a longer input, and no heap.
    let mut name = io::buffer();
    let opened = files::open_log(rt, errors, program, i, &mut name);
    if let Some(mut log) = opened {
        if files::write_text(output, errors, program, heading) {
            list_opened(
                output,
                errors,
                program,
                &name[..log.length],
                &mut log.file,
                form,
            );
        }
    }
}

fn list_opened<L: Listing<ROOM>, const ROOM: usize>(
    output: &impl Print,
    errors: &impl Print,
    program: &[u8],
    name: &[u8],
    file: &mut impl Read,
    form: &L,
) {
    let mut state = started();
    let mut memory = [0u8; ROOM];
    let mut lines = Text {
        memory: &mut memory,
        end: 0,
    };
    list_all(
        output, errors, program, name, file, form, &mut state, &mut lines,
    );
}

// Lists a log to its end, chunk after chunk. The lines and the state are left as after the last chunk.
fn list_all<L: Listing<ROOM>, const ROOM: usize>(
    output: &impl Print,
    errors: &impl Print,
    program: &[u8],
    name: &[u8],
    file: &mut impl Read,
    form: &L,
    state: &mut [u8; STATE],
    lines: &mut Text,
)
    requires { (state.old ≡ lent start) × (length lines.old.memory.now ≡ ROOM) }
    ensures { Continues (L.line form.now) state.new lines.new.memory.now lines.new.end }
{
    let mut log = [0u8; WHOLE];
    let mut message = [0u8; MESSAGE];
    let mut number: u64 = 1;
    lines.end = 0;
    // Stays while: the log's end is known only when it is read.
    while number < LAST {
        let chunk = read_chunk(errors, program, name, file, number, &mut log);
        let octets = chunk.octets;
        list(form, state, number, &log[..octets], &mut message, lines);
        if !write_chunk(output, errors, program, chunk, lines.as_bytes()) {
            return;
        }
        number = chunk.next;
    }
}

// Lists a chunk of a log, whose first piece has a number, in place of what was listed before: a shorter tail is a piece too.
fn list<L: Listing<ROOM>, const ROOM: usize>(
    form: &L,
    state: &mut [u8; STATE],
    first: u64,
    log: &[u8],
    message: &mut [u8; MESSAGE],
    lines: &mut Text,
)
    requires { (length log.now ≤ 23552) × (length lines.old.memory.now ≡ ROOM) × (first < 1000000000000000000) }
    ensures listed { (take lines.new.end lines.new.memory.now ≡ L.all_lines form.now (held_in state.old) first (cut log.now)) × (state.new ≡ lent (after (held_in state.old) (cut log.now))) × (lines.new.end ≤ ROOM) }
    ensures size { length lines.new.memory.now ≡ length lines.old.memory.now }
{
    let mut number = first;
    lines.end = 0;
    // Stays by places, and no chunks: where a piece ends is what piece_end promises.
    for k in 0..log.len().div_ceil(BLOCK) {
        let at = k * BLOCK;
        let piece = &log[at..piece_end(at, log.len())];
        let answer = firmware::cb_intake(state, piece, message);
        form.put_line(number, answer, message, lines);
        number += 1;
    }
}
