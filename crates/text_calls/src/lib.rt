// The entries for C that write and read text: numbers come back packed.
#![tactic(auto)]

ghost use Rattle.std.specs.Prelude.{◌≡◌};
ghost use Rattle.text_calls.specs.Paper.{write_call, read_call};

use page::{MessageId, Serial};

// Writes a page of text: number + 256 × used octets.
pub fn cb_write_text(
    serial: u16,
    identifier: u16,
    scheme: u8,
    parameter: u8,
    text: &[u16],
    page: &mut [u8],
) -> u32
    ensures { record { returned = result; memory = page.new } ≡ write_call (record { serial = serial; id = identifier; scheme = scheme; parameter = parameter }) text.now page.old }
{
    let answer = text_writer::write_text(
        Serial(serial),
        MessageId(identifier),
        scheme,
        parameter,
        text,
        page,
    );
    match answer {
        Ok(used) => 256 * used as u32,
        Err(refusal) => u32::from(u8::from(refusal)),
    }
}

// Reads the text of what was received of a page: number + 256 × characters.
pub fn cb_read_text(page: &[u8], received: usize, text: &mut [u16]) -> u32
    ensures { record { returned = result; memory = text.new } ≡ read_call page.now received text.old }
{
    let answer = text_reader::read_text(page, received, text);
    match answer {
        Ok(characters) => 256 * characters as u32,
        Err(refusal) => u32::from(u8::from(refusal)),
    }
}
