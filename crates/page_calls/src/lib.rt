// The entries for C that read a page's header, and tell whether its content can be handed back.
#![tactic(auto)]

ghost use Rattle.std.specs.Prelude.{◌≡◌};
ghost use Rattle.page_calls.specs.Paper.{header_call, content_call};

use page::Header;
use refusals::Refusal;
use sizes::MESSAGE;

// Reads a page's header: number + 2^8 × scheme + 2^16 × serial + 2^32 × identifier + 2^48 × parameter.
#[tactic(auto, using(crate::proofs::Headed::headed_length, crate::proofs::Headed::reads_header), unfolding(crate::specs::Paper::headed, page::specs::Paper::header))]
pub fn cb_read_header(page: &[u8]) -> u64
    ensures { result ≡ header_call page.now }
{
    if page.len() != MESSAGE {
        return u64::from(u8::from(Refusal::MessageLength));
    }
    let read = Header::from([page[0], page[1], page[2], page[3], page[4], page[5]]);
    let low = 0x100 * read.scheme as u64 + 0x10000 * read.serial.0 as u64;
    low + 0x100000000 * read.id.0 as u64 + 0x1000000000000 * read.parameter as u64
}

// Whether the content of what was received of a page can be handed back: the number.
pub fn cb_content(page: &[u8], received: usize) -> u32
    ensures { result ≡ content_call page.now received }
{
    let answer = page::content_answer(page, received);
    match answer {
        Ok(()) => 0,
        Err(refusal) => u32::from(u8::from(refusal)),
    }
}
