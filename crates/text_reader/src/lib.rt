// Text of the default alphabet and its extension read out of a page.
#![tactic(auto)]

mod points;
mod reading;

ghost use Rattle.std.specs.Prelude.{◌≡◌, ◌≤◌, Ok, length, replicate};
ghost use Rattle.text.specs.Paper.{blank_cell, shown, shown_text, whole_of, reading};
ghost use Rattle.text_reader.specs.Coded.{reading_of};

use refusals::Refusal;
use text::PLACES;

// 02 No. 6: what stands past a text is spaces.
fn blank(text: &mut [u16])
    ensures { text.new ≡ replicate (length text.old) blank_cell }
{
    text.fill(0x20);
}

// Writes the text of some content received, blank cells after it, and answers its length.
fn show(content: &[u8], text: &mut [u16]) -> usize
    requires { (length content.now ≤ 82) × (length text.old ≡ 93) }
    ensures { reading_of (Ok result) text.new ≡ shown_text (shown (whole_of content.now)) }
{
    let whole = content.len() + content.len() / 7;
    // Stays an array that is filled up to a length: there is no heap under a call for C.
    let mut septets = [0u8; PLACES];
    packing::unpack(content, &mut septets[..whole]);
    let n = reading::read(points::default_alphabet(), &septets[..whole], text);
    blank(&mut text[n..]);
    n
}

// Reads the text of what was received of a page, or refuses it and leaves the text as it is. Text is 93 code points, of which the
// answer is how many were read; the rest are spaces. Refused, in this order: OutputLength, what `page::content_answer` refuses, Scheme.
pub fn read_text(page: &[u8], received: usize, text: &mut [u16]) -> Result<usize, Refusal>
    ensures { reading_of result text.new ≡ reading page.now received text.old }
{
    if text.len() != PLACES {
        return Err(Refusal::OutputLength);
    }
    page::content_answer(page, received)?;
    if page[4] > 0x0F {
        return Err(Refusal::Scheme);
    }
    Ok(show(page::content(page, received), text))
}
