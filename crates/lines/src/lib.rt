// Text put together in lent memory: octets, numbers in decimal and in hex, each behind the text so far.
#![tactic(auto)]

ghost use Rattle.std.specs.Prelude.{◌≡◌, [], ◌∷◌, ◌+◌, ◌<◌, length, take, leb};
ghost use Rattle.lines.specs.Paper.{decimal, marked, hex_digit, hexadecimal, behind, all_behind};

// A text that is put together in lent memory, and how many octets it has. What does not fit in the memory is left out.
#[derive(Drop)]
pub struct Text<'a> {
    pub memory: &'a mut [u8],
    pub end: usize,
}

impl<'a> Text<'a> {
    // Whether a number of octets fits behind the text.
    fn has_room(&self, count: usize) -> bool
        ensures { result ≡ leb (self.now.end + count) (length self.now.memory.now) }
    {
        let size = self.memory.len();
        if size < self.end {
            return false;
        }
        count <= size - self.end
    }

    // The octets of the text so far; those of the whole memory, where the end is past it.
    pub fn as_bytes(&self) -> &[u8]
        ensures { result.now ≡ take self.now.end self.now.memory.now }
    {
        let memory = &self.memory[..];
        memory.get(..self.end).unwrap_or(memory)
    }

    // Puts octets behind the text. Where they do not fit, nothing is put.
    #[tactic(auto, using(std::proofs::lemmas::Bool::Decides::nat_tests, crate::proofs::Behind::behind_full, crate::proofs::Behind::behind_copy))]
    pub fn put(&mut self, octets: &[u8])
        ensures put { record { end = self.new.end; text = self.new.memory.now } ≡ behind octets.now self.old.end self.old.memory.now }
        ensures same { self.new.memory.ghost_name ≡ self.old.memory.ghost_name }
    {
        if !self.has_room(octets.len()) {
            return;
        }
        let at = self.end;
        let end = at + octets.len();
        self.memory[at..end].copy_from_slice(octets);
        self.end = end;
    }

    // Puts a number in decimal.
    pub fn put_number(&mut self, number: u64)
        ensures put { record { end = self.new.end; text = self.new.memory.now } ≡ behind (decimal number) self.old.end self.old.memory.now }
        ensures same { self.new.memory.ghost_name ≡ self.old.memory.ghost_name }
    {
        // Stays an array: programs take no heap.
        let mut digits = [0u8; 20];
        let k = io::decimal(number, &mut digits);
        self.put(&digits[..k]);
    }

    // Puts one octet.
    pub fn put_octet(&mut self, octet: u8)
        ensures put { record { end = self.new.end; text = self.new.memory.now } ≡ behind (octet ∷ []) self.old.end self.old.memory.now }
        ensures same { self.new.memory.ghost_name ≡ self.old.memory.ghost_name }
    {
        let at = self.end;
        if self.memory.len() <= at {
            return;
        }
        self.memory[at] = octet;
        self.end = at + 1;
    }

    // Puts a number in decimal and an octet behind it.
    pub fn put_marked(&mut self, number: u64, mark: u8)
        ensures put { record { end = self.new.end; text = self.new.memory.now } ≡ all_behind (marked number mark) self.old.end self.old.memory.now }
        ensures same { self.new.memory.ghost_name ≡ self.old.memory.ghost_name }
    {
        self.put_number(number);
        self.put_octet(mark);
    }

    // Puts the lowest digits of a number to base 16, as many as are asked for.
    pub fn put_hex(&mut self, number: u64, count: usize)
        ensures put { record { end = self.new.end; text = self.new.memory.now } ≡ behind (hexadecimal count number) self.old.end self.old.memory.now }
        ensures same { self.new.memory.ghost_name ≡ self.old.memory.ghost_name }
    {
        if !self.has_room(count) {
            return;
        }
        let at = self.end;
        let mut rest = number;
        for i in (0..count).rev() {
            self.memory[at + i] = hex_digit((rest % 16) as u8);
            rest /= 16;
        }
        self.end = at + count;
    }
}

fn hex_digit(digit: u8) -> u8
    requires { digit < 16 }
    ensures { result ≡ hex_digit digit }
{
    if digit < 10 {
        return b'0' + digit;
    }
    b'A' - 10 + digit
}
