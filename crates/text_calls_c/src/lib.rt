// The calls of `text_calls` for C: each calls the function of its name, and promises the same.
#![tactic(auto)]

ghost use Rattle.std.specs.Prelude.{◌≡◌};
ghost use Rattle.text_calls.specs.Paper.{write_call, read_call};

// Writes a page of text: number + 256 × used octets.
#[unsafe(no_mangle)]
pub extern "C" fn cb_write_text(
    serial: u16,
    identifier: u16,
    scheme: u8,
    parameter: u8,
    text: &[u16],
    page: &mut [u8],
) -> u32
    ensures { record { returned = result; memory = page.new } ≡ write_call (record { serial = serial; id = identifier; scheme = scheme; parameter = parameter }) text.now page.old }
{
    text_calls::cb_write_text(serial, identifier, scheme, parameter, text, page)
}

// Reads the text of what was received of a page: number + 256 × characters.
#[unsafe(no_mangle)]
pub extern "C" fn cb_read_text(page: &[u8], received: usize, text: &mut [u16]) -> u32
    ensures { record { returned = result; memory = text.new } ≡ read_call page.now received text.old }
{
    text_calls::cb_read_text(page, received, text)
}
