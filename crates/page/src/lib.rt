// A page's header, what its parameter is read as, the key that pages are the same by, and the part of its content that was received.
#![tactic(auto)]

ghost use Rattle.std.specs.Prelude.{◌≡◌, ◌+◌, ◌*◌};
ghost use Rattle.page.specs.Paper.{header, header_octets, parameter_read, handed_part, handed_number};
ghost use Rattle.page.specs.Coded.{key_of, heading_of, name_of, number_of_handing, part_of};

use refusals::Refusal;
use sizes::{MESSAGE, whole_blocks};

// A serial number.
#[derive(Clone, Copy)]
pub struct Serial(pub u16);

// A message identifier, which no serial number stands for.
#[derive(Clone, Copy)]
pub struct MessageId(pub u16);

// What the six header octets say.
#[derive(Clone, Copy)]
pub struct Header {
    pub serial: Serial,
    pub id: MessageId,
    pub scheme: u8,
    pub parameter: u8,
}

// What tells a page from others.
#[derive(Clone, Copy)]
pub struct PageName {
    pub serial: Serial,
    pub id: MessageId,
    pub parameter: u8,
}

impl PageName {
    // What tells the page as one number: two pages are the same page exactly if their keys are equal, so that a search compares once.
    #[tactic(auto, unfolding(crate::specs::Coded::key_of))]
    pub fn key(self) -> u64
        ensures { result ≡ key_of (name_of self) }
    {
        let parameter = parameter_read(self.parameter) as u64;
        parameter * 0x100000000 + (self.id.0 as u64 * 0x10000 + self.serial.0 as u64)
    }
}

// The number of two octets, the high one first.
pub fn joined(high: u8, low: u8) -> u16
    ensures { result ≡ high * 256 + low }
{
    high as u16 * 256 + low as u16
}

// What a page's first six octets say. GSM 03.41, 9.3.2.
impl From<[u8; 6]> for Header {
    ghost from_gives = { λ octets heading. heading_of heading ≡ header octets };

    #[tactic(auto, unfolding(crate::specs::Paper::header))]
    fn from(octets: [u8; 6]) -> Header {
        Header {
            serial: Serial(joined(octets[0], octets[1])),
            id: MessageId(joined(octets[2], octets[3])),
            scheme: octets[4],
            parameter: octets[5],
        }
    }
}

// A page's first six octets. GSM 03.41, 9.3.2.
impl From<Header> for [u8; 6] {
    ghost from_gives = { λ heading octets. octets ≡ header_octets (heading_of heading) };

    #[tactic(auto, unfolding(crate::specs::Paper::header_octets))]
    fn from(heading: Header) -> [u8; 6] {
        let serial = heading.serial.0;
        let id = heading.id.0;
        [
            (serial / 256) as u8,
            (serial % 256) as u8,
            (id / 256) as u8,
            (id % 256) as u8,
            heading.scheme,
            heading.parameter,
        ]
    }
}

// The page parameter of a single page: page 1 of 1. GSM 03.41, 9.3.2.
const SINGLE: u8 = 0x11;

// What a receiver takes a page parameter for: with 0 in either half, a single page's. GSM 03.41, 9.3.2.
pub fn parameter_read(parameter: u8) -> u8
    ensures { result ≡ parameter_read parameter }
{
    match (parameter / 16, parameter % 16) {
        (0, _) | (_, 0) => SINGLE,
        _ => parameter,
    }
}

// Whether `content` hands a part back, and if not why.
#[tactic(auto, unfolding(crate::specs::Paper::handed_number))]
pub fn content_answer(page: &[u8], received: usize) -> Result<(), Refusal>
    ensures { number_of_handing result ≡ handed_number page.now received }
{
    if page.len() != MESSAGE {
        return Err(Refusal::MessageLength);
    }
    if !whole_blocks(received) {
        return Err(Refusal::ReceivedOctets);
    }
    Ok(())
}

// The content that was received, as it stands in the caller's page: octet 7 to the last received.
pub fn content(page: &[u8], received: usize) -> &[u8]
    ensures { part_of result ≡ handed_part (part_of page.entry) received }
{
    let answer = content_answer(page, received);
    match answer {
        Ok(()) => &page[6..received],
        Err(_) => &page[..0],
    }
}
