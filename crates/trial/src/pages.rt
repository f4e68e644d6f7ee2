// Stored results of the part that is handed back, of packing and of the alphabet.
use crate::fields;
use crate::told::{Line, Unlike};
use page::{MessageId, Serial};

// The septet that makes a pair with the one after it, and is a space by itself.
const ESCAPE: u8 = 0x1B;

// C: page, received; number, the part handed back.
pub(crate) fn content(line: &mut Line) {
    let mut room = fields::room();
    let page = line.take_octets(&mut room);
    let received = line.take_number(u64::MAX) as usize;
    let number = match page::content_answer(page, received) {
        Ok(()) => 0,
        Err(refusal) => u8::from(refusal),
    };
    line.number(u64::from(number));
    line.octets(page::content(page, received));
}

// A: a septet, and the code point that it stands for.
pub(crate) fn septet(line: &mut Line) {
    let mut room = [0u8; 1];
    let Some(septet) = line.take_octets(&mut room).first().copied() else {
        return line.end(Unlike::Unread);
    };
    let code = alphabet::code_point(septet);
    if alphabet::septet(code) != written(septet) {
        return line.end(Unlike::Differs);
    }
    line.code_point(code);
}

// The septet that is written for what a septet stands for.
fn written(septet: u8) -> u8 {
    if septet == ESCAPE {
        return b' ';
    }
    septet
}

// X: septets and the octets that they are packed as. A page has 93 septets, so zero bits, which are septets 00, follow up to
// its end.
pub(crate) fn packing(line: &mut Line) {
    let mut septets = [0u8; 93];
    let count = line.take_octets(&mut septets).len();
    let mut page = [0u8; 88];
    page[5] = 0x11;
    let used = line.take_octets(&mut page[6..]).len();
    if used != (7 * count + 7) / 8 || !is_packing(&septets, &page) {
        line.end(Unlike::Differs);
    }
}

// Whether a page's content is unpacked to septets. Where none of them is 1B, each is also a character, read and written.
fn is_packing(septets: &[u8; 93], page: &[u8; 88]) -> bool {
    let mut unpacked = [0u8; 93];
    packing::unpack(page::content(page, 88), &mut unpacked);
    unpacked == *septets && (septets.contains(&ESCAPE) || is_text(septets, page))
}

// Whether a page is read as the text of septets, and written from it.
fn is_text(septets: &[u8; 93], page: &[u8; 88]) -> bool {
    let mut text = [0u16; 93];
    if !matches!(text_reader::read_text(page, 88, &mut text), Ok(93)) {
        return false;
    }
    let mut pairs = septets.iter().zip(&text);
    if !pairs.all(|(septet, code)| alphabet::septet(*code) == written(*septet)) {
        return false;
    }
    let mut out = [0u8; 88];
    let used = text_writer::write_text(Serial(0), MessageId(0), 0, 0x11, &text, &mut out);
    matches!(used, Ok(88)) && out == *page
}
