// Runs stored results through the entries by value, and says which differ. Those of the C calls are run over the archive, by
// tests/header; where a line tells memory that no value holds, it is passed over here.
//
// Each argument names a file of results, one to a line, in the format of tests/second/README.md, "Stored results". An empty
// line and one that starts with # hold no result.
#![tactic(auto)]

mod fields;
mod pages;
mod pieces;
mod slots;
mod told;

ghost use Rattle.std.specs.Prelude.{length, ◌≤◌};

use std::io::{Print, Read};
use std::rt::{Env, Files};
use told::{Line, Unlike};

// The most octets of a file.
const FILE: usize = 262144;

// The rows of the table: one for each letter of LETTERS, and the last for lines and files that cannot be read.
const NAMES: [&[u8]; 10] = [
    b"pieces",
    b"sequences",
    b"contents",
    b"packings",
    b"alphabet",
    b"schedules",
    b"descriptions",
    b"decisions",
    b"entries",
    b"unread",
];

const LETTERS: [u8; 9] = *b"IQCXASGDE";

const UNREAD: usize = 9;

// The results tried of a row, and those of them that differ.
#[derive(Clone, Copy)]
struct Row {
    tried: u64,
    differ: u64,
}

impl Row {
    // Counts a result, and answers whether it is right.
    fn count(&mut self, right: bool) -> bool {
        self.tried = self.tried.wrapping_add(1);
        if !right {
            self.differ = self.differ.wrapping_add(1);
        }
        right
    }
}

type Rows = [Row; 10];

fn main(rt: HostRuntime) {
    let mut rows: Rows = [Row {
        tried: 0,
        differ: 0,
    }; 10];
    for i in 1..arguments::count(&rt) {
        try_argument(&rt, &rt.stdout(), &rt.stderr(), i, &mut rows);
    }
    print(&rt.stdout(), &rt.stderr(), b"what tried differ\n");
    for (name, row) in NAMES.iter().zip(&rows) {
        print(&rt.stdout(), &rt.stderr(), name);
        print_number(&rt.stdout(), &rt.stderr(), row.tried);
        print_number(&rt.stdout(), &rt.stderr(), row.differ);
        print(&rt.stdout(), &rt.stderr(), b"\n");
    }
}

// A space and a number.
fn print_number(output: &impl Print, errors: &impl Print, number: u64) {
    let mut digits = [0u8; 20];
    let count = io::decimal(number, &mut digits);
    print(output, errors, b" ");
    print(output, errors, &digits[..count]);
}

fn print(output: &impl Print, errors: &impl Print, text: &[u8]) {
    if let Err(error) = output.write_all(text) {
        files::say(errors, b"standard output", error);
    }
}

// Tries the file that an argument names.
fn try_argument<R: Env + Files>(
    rt: &R,
    output: &impl Print,
    errors: &impl Print,
    i: usize,
    rows: &mut Rows,
) {
    let mut name = io::buffer();
    let count = rt.arg(i, &mut name).unwrap_or(0);
    let mut room = [0; FILE];
    let text = read_file(rt, errors, &name[..count], &mut room);
    try_lines(output, errors, &name[..count], text, rows);
}

// Reads a file, and gives what there is of it: nothing, where it cannot be read or does not fit.
fn read_file<'r>(
    rt: &impl Files,
    errors: &impl Print,
    name: &[u8],
    room: &'r mut [u8],
) -> &'r [u8] {
    let mut file = match files::open(rt, name) {
        Ok(file) => file,
        Err(error) => {
            files::say(errors, name, error);
            return &[];
        }
    };
    let count = read_full(&mut file, room);
    if count == room.len() {
        return &[];
    }
    &room[..count]
}

// Reads until a room is full or the file ends, and answers how much of it there is. A read that fails ends it too.
fn read_full(file: &mut impl Read, room: &mut [u8]) -> usize
    ensures { result ≤ length room.new }
{
    let mut have = 0;
    // Stays a loop: it ends where the file does, and a step is what one read gives.
    while have < room.len() {
        match file.read(&mut room[have..]) {
            Ok(0) => return have,
            Ok(more) => have += more,
            Err(_) => return have,
        }
    }
    have
}

// Tries each line, and tells of those that differ; of a file with nothing in it as if it had a line 0.
fn try_lines(output: &impl Print, errors: &impl Print, name: &[u8], text: &[u8], rows: &mut Rows) {
    if text.is_empty() {
        rows[UNREAD].count(false);
        tell(output, errors, name, 0);
    }
    let mut number: u64 = 0;
    let mut rest = text;
    // Stays a loop: a line's end is looked for from behind the line before, and `split` by a closure isn't taken here.
    while !rest.is_empty() {
        let end = rest
            .iter()
            .position(|octet| *octet == b'\n')
            .unwrap_or(rest.len());
        number = number.wrapping_add(1);
        if !try_line(&rest[..end], rows) {
            tell(output, errors, name, number);
        }
        rest = rest.get(end + 1..).unwrap_or(&[]);
    }
}

// Tells of a line that differs.
fn tell(output: &impl Print, errors: &impl Print, name: &[u8], number: u64) {
    print(output, errors, name);
    print_number(output, errors, number);
    print(output, errors, b"\n");
}

// Tries a line, and answers whether nothing differs. A line is right only where it is told to its end.
fn try_line(text: &[u8], rows: &mut Rows) -> bool {
    let letter = match text.first() {
        None | Some(b'#') => return true,
        Some(letter) => *letter,
    };
    let mut line = Line::new(text);
    tell_by(letter, &mut line);
    let row = LETTERS
        .iter()
        .position(|other| *other == letter)
        .unwrap_or(UNREAD);
    match line.rest() {
        Ok(rest) => rows[row].count(rest.is_empty()),
        Err(Unlike::Differs) => rows[row].count(false),
        Err(Unlike::Unread) => rows[UNREAD].count(false),
        Err(Unlike::NoValue) => true,
    }
}

// Tells a line by the entry of its letter.
fn tell_by(letter: u8, line: &mut Line) {
    match letter {
        b'I' => pieces::intake(line),
        b'Q' => pieces::sequence(line),
        b'C' => pages::content(line),
        b'X' => pages::packing(line),
        b'A' => pages::septet(line),
        b'S' => slots::schedule(line),
        b'G' => slots::description(line),
        b'D' => slots::decision(line),
        b'E' => slots::entry(line),
        b'N'
        | b'V'
        | b'B'
        | b'T'
        | b'R'
        | b'H'
        | b'J'
        | b'M'
        | b'O'
        | b'L'
        | b'P'
        | b'W'
        | b'K'
        | b'U' => line.end(Unlike::NoValue),
        _ => line.end(Unlike::Unread),
    }
}
