// Shows the pages of a log of blocks from a file or standard input: a line for each, with its text, or its content in hex.
#![tactic(auto)]

ghost use Rattle.std.specs.Prelude.{◌≡◌, refl, true, map};
ghost use Rattle.std.proofs.Common.{lit≤, lit<};
ghost use Rattle.sizes.specs.Paper.{whole_blocks};
ghost use Rattle.lines.specs.Paper.{hexadecimal, behind, all_behind};
ghost use Rattle.cbtext.specs.Paper.{utf8, character, names, parts, heading, line_of, page_lines};
ghost use Rattle.cbtext.specs.Inner.{lettered, text_texts, hex_texts, body_texts, page_texts};

use arguments::Program;
use lines::Text;
use logs::Listing;
use page::{Header, MessageId, Serial};
use sizes::MESSAGE;
use text::PLACES;

// Room for the longest line of each piece of a chunk.
const ROOM: usize = 366592;

// The program, as its arguments are asked for and told.
const PROGRAM: Program<'static> = Program {
    name: b"cbtext",
    usage: b"cbtext: usage: cbtext [FILE]\n",
    help: b"usage: cbtext [FILE]\n\
        Shows the pages of a log of blocks, FILE or standard input, a line for each page that is complete.\n\
        A line has the number of the page's last block, its serial number and identifier in hex, page and total,\n\
        and then the word text with the text received or, where the coding scheme is over 0F, hex with the content received.\n\
        Inside a text \\n and \\r are line ends, \\f is a form feed and \\\\ a backslash.\n",
    fewest: 1,
    most: 2,
};

// Stays a main of its own: what it works on is this program's.
fn main(rt: HostRuntime) {
    let output = rt.stdout();
    let errors = rt.stderr();
    if arguments::asked_to_work(&rt, &PROGRAM, &output, &errors) {
        logs::list_named(&rt, &output, &errors, PROGRAM.name, 1, b"", &Pages);
    }
}

// A line for each page that is complete.
struct Pages;

impl Listing<ROOM> for Pages {
    ghost line = { λ _. line_of };

    ghost all_lines = { λ _. page_lines };

    ghost wide = { 358 };

    ghost line_by_line = { λ _ _ _ _. refl };

    ghost fits = { lit≤ tt };

    ghost lendable = { lit< tt };

    fn put_line(&self, number: u64, answer: u32, message: &[u8; MESSAGE], lines: &mut Text) {
        if answer % 256 != 0 {
            return;
        }
        put_page(number, message, (answer / 256) as usize, lines);
    }
}

fn put_page(number: u64, page: &[u8; MESSAGE], received: usize, lines: &mut Text)
    requires { whole_blocks received ≡ true }
    ensures put { record { end = lines.new.end; text = lines.new.memory.now } ≡ all_behind (page_texts number page.now received) lines.old.end lines.old.memory.now }
    ensures same { lines.new.memory.ghost_name ≡ lines.old.memory.ghost_name }
{
    put_heading(number, page, lines);
    put_body(page, received, lines);
    lines.put_octet(b'\n');
}

// Puts a block's number and what the page's header says.
fn put_heading(number: u64, page: &[u8; MESSAGE], lines: &mut Text)
    ensures put { record { end = lines.new.end; text = lines.new.memory.now } ≡ all_behind (heading number page.now) lines.old.end lines.old.memory.now }
    ensures same { lines.new.memory.ghost_name ≡ lines.old.memory.ghost_name }
{
    let header = Header::from([page[0], page[1], page[2], page[3], page[4], page[5]]);
    let serial = header.serial;
    let id = header.id;
    let parameter = header.parameter;
    put_names(number, serial, id, lines);
    lines.put_octet(b' ');
    put_parameter(parameter, lines);
}

// Puts a block's number, and a page's serial number and identifier.
#[tactic(auto, unfolding(lines::specs::Paper::all_behind))]
fn put_names(number: u64, serial: Serial, id: MessageId, lines: &mut Text)
    ensures put { record { end = lines.new.end; text = lines.new.memory.now } ≡ all_behind (names number serial.0 id.0) lines.old.end lines.old.memory.now }
    ensures same { lines.new.memory.ghost_name ≡ lines.old.memory.ghost_name }
{
    lines.put_marked(number, b' ');
    lines.put_hex(serial.0 as u64, 4);
    lines.put_octet(b' ');
    lines.put_hex(id.0 as u64, 4);
}

// Puts the page and the total of a page parameter.
#[tactic(auto, unfolding(lines::specs::Paper::all_behind))]
fn put_parameter(parameter: u8, lines: &mut Text)
    ensures put { record { end = lines.new.end; text = lines.new.memory.now } ≡ all_behind (parts parameter) lines.old.end lines.old.memory.now }
    ensures same { lines.new.memory.ghost_name ≡ lines.old.memory.ghost_name }
{
    lines.put_marked((parameter / 16) as u64, b'/');
    lines.put_number((parameter % 16) as u64);
}

// Puts what was received of a page: its text, or its content where the scheme is another.
fn put_body(page: &[u8; MESSAGE], received: usize, lines: &mut Text)
    requires { whole_blocks received ≡ true }
    ensures put { record { end = lines.new.end; text = lines.new.memory.now } ≡ all_behind (body_texts page.now received) lines.old.end lines.old.memory.now }
    ensures same { lines.new.memory.ghost_name ≡ lines.old.memory.ghost_name }
{
    // Stays a fixed array: read_text writes all of its places, and a program holds no heap.
    let mut points = [0u16; PLACES];
    let got = text_reader::read_text(page, received, &mut points);
    if let Ok(count) = got {
        put_text(&points[..count], lines);
        return;
    }
    put_content(page::content(page, received), lines);
}

#[tactic(auto, unfolding(lines::specs::Paper::ascii, lines::specs::Paper::all_behind))]
fn put_text(points: &[u16], lines: &mut Text)
    ensures put { record { end = lines.new.end; text = lines.new.memory.now } ≡ all_behind (text_texts points.now) lines.old.end lines.old.memory.now }
    ensures same { lines.new.memory.ghost_name ≡ lines.old.memory.ghost_name }
{
    lines.put(b" text ");
    put_characters(points, lines);
}

// Stays beside `put_octets`: one for both would take a closure for a loop of three lines.
fn put_characters(points: &[u16], lines: &mut Text)
    ensures put { record { end = lines.new.end; text = lines.new.memory.now } ≡ all_behind (map character points.now) lines.old.end lines.old.memory.now }
    ensures same { lines.new.memory.ghost_name ≡ lines.old.memory.ghost_name }
{
    for point in points {
        put_character(*point, lines);
    }
}

// Line ends, form feeds and backslashes in a text are told by letters behind a backslash, so that each page keeps to its line
// and no two texts look alike.
fn put_character(point: u16, lines: &mut Text)
    ensures put { record { end = lines.new.end; text = lines.new.memory.now } ≡ behind (character point) lines.old.end lines.old.memory.now }
    ensures same { lines.new.memory.ghost_name ≡ lines.old.memory.ghost_name }
{
    let Some(letter) = letter_of(point) else {
        put_utf8(point, lines);
        return;
    };
    lines.put(&[b'\\', letter]);
}

// The letter that stands for a character behind a backslash, where it is not written as it is.
#[tactic(auto, unfolding(crate::specs::Paper::letter, crate::specs::Inner::lettered))]
fn letter_of(point: u16) -> Option<u8>
    ensures { result ≡ lettered point }
{
    match point {
        0x0A => Some(b'n'),
        0x0C => Some(b'f'),
        0x0D => Some(b'r'),
        0x5C => Some(b'\\'),
        _ => None,
    }
}

// Stays by hand: a u16 may be a surrogate, which is no char and has no encode_utf8.
fn put_utf8(point: u16, lines: &mut Text)
    ensures put { record { end = lines.new.end; text = lines.new.memory.now } ≡ behind (utf8 point) lines.old.end lines.old.memory.now }
    ensures same { lines.new.memory.ghost_name ≡ lines.old.memory.ghost_name }
{
    if point < 0x80 {
        lines.put_octet(point as u8);
        return;
    }
    if point < 0x800 {
        lines.put(&[(0xC0 + point / 64) as u8, (0x80 + point % 64) as u8]);
        return;
    }
    let first = (0xE0 + point / 4096) as u8;
    lines.put(&[
        first,
        (0x80 + point / 64 % 64) as u8,
        (0x80 + point % 64) as u8,
    ]);
}

#[tactic(auto, unfolding(lines::specs::Paper::ascii, lines::specs::Paper::all_behind))]
fn put_content(content: &[u8], lines: &mut Text)
    ensures put { record { end = lines.new.end; text = lines.new.memory.now } ≡ all_behind (hex_texts content.now) lines.old.end lines.old.memory.now }
    ensures same { lines.new.memory.ghost_name ≡ lines.old.memory.ghost_name }
{
    lines.put(b" hex ");
    put_octets(content, lines);
}

fn put_octets(content: &[u8], lines: &mut Text)
    ensures put { record { end = lines.new.end; text = lines.new.memory.now } ≡ all_behind (map (hexadecimal 2) content.now) lines.old.end lines.old.memory.now }
    ensures same { lines.new.memory.ghost_name ≡ lines.old.memory.ghost_name }
{
    for octet in content {
        lines.put_hex(*octet as u64, 2);
    }
}
