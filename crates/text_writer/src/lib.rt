// Text of the default alphabet and its extension written into a page: looked through first, and then packed character by character.
#![tactic(auto)]

mod filling;
mod septets;

ghost use Rattle.std.specs.Prelude.{◌≡◌, [], ◌∷◌, false, not, length};
ghost use Rattle.page.specs.Coded.{heading_of};
ghost use Rattle.text.specs.Paper.{bad_parameter, ends_in_cr, page_octets, written_page};
ghost use Rattle.text_writer.specs.Coded.{heading_with, writing_of};
ghost use Rattle.text_writer.specs.Inner.{Known, Writable, counted_page, looked, odd, past};

use page::{Header, MessageId, Serial};
use refusals::Refusal;
use septets::Septets;
use sizes::MESSAGE;
use text::PLACES;

// Whether a page parameter may not be written. A total of 0 is below any page but 0.
#[tactic(auto, unfolding(text::specs::Paper::bad_parameter))]
fn bad_parameter(parameter: u8) -> bool
    ensures { result ≡ bad_parameter parameter }
{
    if parameter / 16 == 0 {
        return true;
    }
    parameter % 16 < parameter / 16
}

#[tactic(auto, unfolding(text::specs::Paper::ends_in_cr))]
fn ends_in_cr(text: &[u16]) -> bool
    ensures { result ≡ ends_in_cr text.now }
{
    match text {
        [.., last] => *last == 0x0D,
        [] => false,
    }
}

// Whether every character has a septet of its own. Where none is past the table, each has an entry.
fn is_plain(table: Septets<'_>, text: &[u16]) -> bool
    ensures { result ≡ not (odd text.now) }
{
    if has_past(text) {
        return false;
    }
    !has_none(table, text)
}

// Whether some character is past the table. The loop has no early way out, so that the compiler can take many at once.
// Stays a loop: `any` takes four times its instructions, and one search with a closure for all is no plainer at its callers.
#[tactic(auto, using(crate::proofs::Foreign::past_steps))]
fn has_past(text: &[u16]) -> bool
    ensures { result ≡ past text.now }
{
    let mut found = false;
    for code in text {
        if *code >= 938 {
            found = true;
        }
    }
    found
}

// Whether some character's entry is the mark for none, which is no septet.
// Stays a loop, as `has_past` does.
#[tactic(auto, using(crate::proofs::Foreign::none_steps))]
fn has_none(table: Septets<'_>, text: &[u16]) -> bool
    requires { past text.now ≡ false }
    ensures { result ≡ odd text.now }
{
    let mut found = false;
    for code in text {
        if table.by_code[*code as usize] >= 128 {
            found = true;
        }
    }
    found
}

// How many septets a character has: one, two, or none if it is in neither table.
fn width(table: Septets<'_>, code: u16) -> Option<usize>
    ensures { result ≡ looked (code ∷ []) }
{
    if table.of(code) < 128 {
        return Some(1);
    }
    if alphabet::pair_septet(code) < 128 {
        return Some(2);
    }
    None
}

// Counts the septets of a text that may have pairs in it, character by character.
fn look_at_each(table: Septets<'_>, text: &[u16]) -> Option<usize>
    ensures { result ≡ looked text.now }
{
    let mut count = 0;
    for code in text {
        let n = width(table, *code)?;
        count += n;
    }
    Some(count)
}

// Counts the septets of a text, if each character is in one of the tables. A plain one, which most are, has a septet for each.
fn look(table: Septets<'_>, text: &[u16]) -> Option<usize>
    ensures { result ≡ looked text.now }
{
    if is_plain(table, text) {
        return Some(text.len());
    }
    look_at_each(table, text)
}

// Makes a page of a header and a text.
// Stays a count beside the text: it is of septets, of which a pair has two.
fn put_page(table: Septets<'_>, heading: Header, text: &[u16], count: usize, page: &mut [u8])
    requires { Writable text.now count 88 page.old }
    ensures { page.new ≡ page_octets (heading_of heading) text.now }
{
    let head = <[u8; 6]>::from(heading);
    octets::copy(&head, &mut page[..6]);
    filling::pack(table, text, count, &mut page[6..]);
}

// Writes a page of a text that has so many septets, if there are not too many and it does not end in CR.
// Stays a function of its own: behind all six tests the compiler leaves `put_page` a call, with a frame of its own on the stack.
// Stays a count beside the text: it is of septets, of which a pair has two.
#[tactic(auto, using(std::proofs::lemmas::Bool::Decides::nat_tests), unfolding(crate::specs::Inner::counted_page))]
fn write_counted(
    table: Septets<'_>,
    heading: Header,
    text: &[u16],
    count: usize,
    page: &mut [u8],
) -> Result<usize, Refusal>
    requires { Known text.now count × (length page.old ≡ 88) }
    ensures { writing_of result page.new ≡ counted_page (heading_of heading) text.now page.old }
{
    if count > PLACES {
        return Err(Refusal::TextLength);
    }
    if ends_in_cr(text) {
        return Err(Refusal::EndsInCr);
    }
    put_page(table, heading, text, count, page);
    Ok(6 + (7 * count + 7) / 8)
}

// Writes a page of text, or refuses it and leaves the page as it is: 88 octets, of which six are the header (GSM 03.41 9.3.2), and
// the rest 93 septets of GSM 03.38, padded with CR. Text is code points, and the answer is the number of octets used. Refused, in
// this order: OutputLength, Scheme, PageParameter, NotInAlphabet, TextLength, EndsInCr.
#[tactic(auto, using(std::proofs::lemmas::Bool::Decides::nat_tests), unfolding(text::specs::Paper::written_page, crate::specs::Inner::counted_page))]
pub fn write_text(
    serial: Serial,
    id: MessageId,
    scheme: u8,
    parameter: u8,
    text: &[u16],
    page: &mut [u8],
) -> Result<usize, Refusal>
    ensures { writing_of result page.new ≡ written_page (heading_with serial id scheme parameter) text.now page.old }
{
    if page.len() != MESSAGE {
        return Err(Refusal::OutputLength);
    }
    if scheme > 0x0F {
        return Err(Refusal::Scheme);
    }
    if bad_parameter(parameter) {
        return Err(Refusal::PageParameter);
    }
    let table = septets::default_alphabet();
    let Some(count) = look(table, text) else {
        return Err(Refusal::NotInAlphabet);
    };
    let heading = Header {
        serial,
        id,
        scheme,
        parameter,
    };
    write_counted(table, heading, text, count, page)
}
