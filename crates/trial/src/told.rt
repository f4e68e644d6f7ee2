// A line of stored results, told character by character.
use block_intake::State;

// Why a line is not told to its end.
#[derive(Clone, Copy, Debug, PartialEq, Eq)]
pub(crate) enum Unlike {
    // A field cannot be read.
    Unread,
    // The line tells a result otherwise.
    Differs,
    // The line tells of no entry by value.
    NoValue,
}

// A line, and what of it is still to be told, or why it is not told any further. What comes after that is passed over.
#[derive(Clone, Copy)]
pub(crate) struct Line<'a> {
    text: &'a [u8],
    rest: Result<&'a [u8], Unlike>,
}

impl<'a> Line<'a> {
    // A line from behind its letter.
    pub(crate) fn new(text: &'a [u8]) -> Line<'a> {
        Line {
            text,
            rest: Ok(text.get(1..).unwrap_or(text)),
        }
    }

    // The characters of the whole line.
    pub(crate) fn len(&self) -> usize {
        self.text.len()
    }

    // What is still to be told.
    pub(crate) fn rest(&self) -> Result<&'a [u8], Unlike> {
        self.rest
    }

    // Ends the telling.
    pub(crate) fn end(&mut self, why: Unlike) {
        self.rest = Err(why);
    }

    // Ends the reading of a field, which was read if it was told to a blank or to the line's end.
    pub(crate) fn end_field(&mut self) {
        if !matches!(self.rest, Ok([] | [b' ', ..])) {
            self.end(Unlike::Unread);
        }
    }

    // Some characters.
    fn text(&mut self, characters: &[u8]) {
        if let Ok(rest) = self.rest {
            match rest.strip_prefix(characters) {
                Some(behind) => self.rest = Ok(behind),
                None => self.rest = Err(Unlike::Differs),
            }
        }
    }

    // A number of so many digits at least.
    fn digits(&mut self, number: u64, width: usize) {
        let mut characters = [0u8; 16];
        let count = io::hex(number, width, &mut characters);
        self.text(&characters[..count]);
    }

    // A number.
    pub(crate) fn number(&mut self, number: u64) {
        self.text(b" ");
        self.digits(number, 1);
    }

    // Some numbers.
    pub(crate) fn numbers(&mut self, numbers: &[u64]) {
        for number in numbers {
            self.number(*number);
        }
    }

    // Octets.
    pub(crate) fn octets(&mut self, octets: &[u8]) {
        self.text(b" ");
        if octets.is_empty() {
            self.text(b"-");
        }
        self.all_octets(octets);
    }

    fn all_octets(&mut self, octets: &[u8]) {
        for octet in octets {
            self.octet(*octet);
        }
    }

    fn octet(&mut self, octet: u8) {
        self.digits(u64::from(octet), 2);
    }

    // A code point, in four digits.
    pub(crate) fn code_point(&mut self, code: u16) {
        self.text(b" ");
        self.digits(u64::from(code), 4);
    }

    // That memory stays as it was.
    pub(crate) fn kept(&mut self) {
        self.text(b" =");
    }

    // A state: kind, blocks taken, octets.
    pub(crate) fn state(&mut self, state: State) {
        self.text(b" ");
        self.octet(state.kind);
        self.octet(state.taken);
        self.all_octets(&state.octets);
    }

    // A state after an entry: that it is as the line's first field gave it, or what it is.
    pub(crate) fn state_after(&mut self, after: State) {
        let mut first = Line::new(self.text);
        first.state(after);
        if first.rest.is_ok() {
            self.kept();
        } else {
            self.state(after);
        }
    }
}
