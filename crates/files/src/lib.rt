// Files that a program's arguments name, opened and read; text written; and what the system refused, said on standard error.
#![tactic(auto)]

ghost use Rattle.std.specs.Prelude.{◌≡◌, true, ◌≤◌, length};
ghost use Rattle.lines.specs.Paper.{all_behind};
ghost use Rattle.files.specs.Paper.{faulty};
ghost use Rattle.files.specs.Inner.{named, filled};

use lines::Text;
use std::env::FillError;
use std::fmt::Write;
use std::fs::File;
use std::io::{Error, Input, Print, Read};
use std::rt::{Env, Files};
use std::{fmt, io};

// Room for the names of a program and of a file.
pub const NAMES: usize = 4200;

// Room for the words of an error.
const WORDS: usize = 256;

// The system's numbers of three errors: no such argument, a name that is too long, and a name that is not UTF-8.
const EINVAL: i32 = 22;

const ENAMETOOLONG: i32 = 36;

const EILSEQ: i32 = 84;

// A file opened for reading, and how many octets of lent memory its name fills.
#[derive(Drop)]
pub struct Opened<S> {
    pub file: S,
    pub length: usize,
}

// What a log is read from: a file, or standard input.
#[derive(Drop)]
pub enum Source<F, I> {
    File(F),
    Input(I),
}

impl<F: Read, I: Read> Read for Source<F, I> {
    fn read(&mut self, memory: &mut [u8]) -> io::Result<usize> {
        match self {
            Source::File(file) => file.read(memory),
            Source::Input(input) => input.read(memory),
        }
    }
}

// A read that failed, and how many octets came before it.
#[derive(Clone, Copy, Debug, PartialEq, Eq)]
pub struct ReadFault {
    pub octets: usize,
}

// An error's words.
#[derive(Drop)]
struct Words<'a>(Text<'a>);

impl Write for Words<'_> {
    fn write_str(&mut self, words: &str) -> fmt::Result {
        self.0.put(words.as_bytes());
        Ok(())
    }
}

// Says on standard error what the system refused, and behind it why.
pub fn say(errors: &impl Print, what: &[u8], error: Error) {
    // Stays an array: programs take no heap.
    let mut memory = [0u8; WORDS];
    let mut words = Words(Text {
        memory: &mut memory,
        end: 0,
    });
    let _ = write!(words, "{error}");
    let _ = errors.write_all(what);
    let _ = errors.write_all(b": ");
    let _ = errors.write_all(unnumbered(words.0.as_bytes()));
    let _ = errors.write_all(b"\n");
}

// The words of an error without its number, which stands last and in brackets.
fn unnumbered(words: &[u8]) -> &[u8] {
    match words.iter().rposition(|octet| *octet == b'(') {
        Some(at) => &words[..at.saturating_sub(1)],
        None => words,
    }
}

// Puts the name of a program and that of a thing that the system refused it. A part that does not fit is left out.
#[tactic(auto, unfolding(lines::specs::Paper::ascii, lines::specs::Paper::all_behind))]
fn put_fault(program: &[u8], name: &[u8], line: &mut Text)
    ensures put { record { end = line.new.end; text = line.new.memory.now } ≡ all_behind (faulty program.now name.now) line.old.end line.old.memory.now }
    ensures same { line.new.memory.ghost_name ≡ line.old.memory.ghost_name }
{
    line.put(program);
    line.put(b": ");
    line.put(name);
}

// Says on standard error what the system refused a program, and behind it why. The names are put into lent memory; answers how long they are.
pub fn say_fault(
    errors: &impl Print,
    error: Error,
    program: &[u8],
    name: &[u8],
    text: &mut [u8],
) -> usize
    ensures { record { end = result; text = text.new } ≡ all_behind (faulty program.now name.now) 0 text.old }
{
    let mut line = Text {
        memory: text,
        end: 0,
    };
    put_fault(program, name, &mut line);
    say(errors, line.as_bytes(), error);
    line.end
}

fn fail(errors: &impl Print, error: Error, program: &[u8], name: &[u8]) {
    // Stays an array: programs take no heap.
    let mut text = [0u8; NAMES];
    say_fault(errors, error, program, name, &mut text);
}

// Opens a file by its name. A name that is not UTF-8 is refused.
pub fn open<R: Files>(rt: &R, name: &[u8]) -> io::Result<R::File> {
    match std::str::from_utf8(name) {
        Ok(path) => File::open(rt, path),
        Err(_) => Err(Error::from_raw_os_error(EILSEQ)),
    }
}

// Opens the file that argument i names, and leaves its name in lent memory. Where the system refuses it, that is said, and there
// is none.
pub fn open_named<R: Env + Files>(
    rt: &R,
    errors: &impl Print,
    program: &[u8],
    i: usize,
    name: &mut [u8],
) -> Option<Opened<R::File>>
    ensures { named result ≤ length name.old }
{
    let size = match rt.arg(i, name) {
        Ok(size) => size,
        Err(unfilled) => {
            say(errors, program, Error::from_raw_os_error(number(unfilled)));
            return None;
        }
    };
    match open(rt, &name[..size]) {
        Ok(file) => Some(Opened { file, length: size }),
        Err(error) => {
            fail(errors, error, program, &name[..size]);
            None
        }
    }
}

// The number of the error where an argument is not to be had.
// Stays a function, and no From: FillError and Error are both the standard library's.
fn number(unfilled: FillError) -> i32 {
    match unfilled {
        FillError::NotPresent => EINVAL,
        FillError::TooLong => ENAMETOOLONG,
    }
}

// Opens the log that argument i names; where there is no such argument it is standard input.
pub fn open_log<R: Env + Files + Input>(
    rt: &R,
    errors: &impl Print,
    program: &[u8],
    i: usize,
    name: &mut [u8],
) -> Option<Opened<Source<R::File, R::Reader>>>
    ensures { named result ≤ length name.old }
{
    if let Err(FillError::NotPresent) = rt.arg(i, &mut []) {
        let mut text = Text {
            memory: name,
            end: 0,
        };
        text.put(b"standard input");
        let file = Source::Input(rt.reader());
        return Some(Opened {
            file,
            length: text.end,
        });
    }
    let opened = open_named(rt, errors, program, i, name)?;
    Some(Opened {
        file: Source::File(opened.file),
        length: opened.length,
    })
}

// Fills memory from a file that was opened by a name, up to the file's end or that of the memory, and answers how many octets
// were read. A read that fails is said.
pub fn fill(
    errors: &impl Print,
    program: &[u8],
    name: &[u8],
    file: &mut impl Read,
    memory: &mut [u8],
) -> Result<usize, ReadFault>
    ensures { filled result ≤ length memory.old }
{
    // Stays a loop by a count: each step is as long as what a read gives.
    let mut have = 0;
    while have < memory.len() {
        match file.read(&mut memory[have..]) {
            Ok(0) => return Ok(have),
            Ok(more) => have += more,
            Err(error) => {
                fail(errors, error, program, name);
                return Err(ReadFault { octets: have });
            }
        }
    }
    Ok(have)
}

// Writes text to standard output, and answers whether all of it was written.
// Stays apart, output, errors and program, here and in the programs: a struct of them has the types of both as parameters, which each
// function would name.
pub fn write_text(output: &impl Print, errors: &impl Print, program: &[u8], text: &[u8]) -> bool
    ensures { length text.now ≡ 0 → result ≡ true }
{
    if text.len() == 0 {
        return true;
    }
    if let Err(error) = output.write_all(text) {
        fail(errors, error, program, b"standard output");
        return false;
    }
    true
}
