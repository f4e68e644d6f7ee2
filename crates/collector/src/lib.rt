// Messages of several pages, collected in memory that the caller lends: 1,340 octets of collector, and as many of output.
#![tactic(auto)]

ghost use Rattle.std.specs.Prelude.{◌≡◌, ◌++◌, ◌-◌, ◌≤◌, ◌<◌, length, take, Ok};
ghost use Rattle.collector.specs.Paper.{page_number, page_total, page_place, blanks, start, begun, is_of, goes_on, put, with_page, settled, moved, collected, start_call, collect_call};
ghost use Rattle.collector.specs.Coded.{number_of_answer, pages_of_answer};
ghost use Rattle.collector.specs.Inner.{pages_in, pages_of, Takes, Holds, Adds};

use refusals::Refusal;
use sizes::{FILLER, MESSAGE, whole_blocks};

// 02 No. 3: the pages of a message at most. GSM 03.41, 9.3.2, has four bits for them.
const PAGES: usize = 15;

// The octets in front of the pages: total, serial number, identifier.
const FRONT: usize = 5;

// The octets of a page in a collector: one for the octets received, and the page.
const HELD: usize = 89;

// The octets of a collector, and of a message handed out.
pub const COLLECTOR: usize = 1340;

// What came of a page that was given to a collector.
#[derive(Clone, Copy, Debug, PartialEq, Eq)]
pub enum Answer {
    // All pages of its message are there, so many.
    HandedOut(u8),
    // It is kept, or passed over because an earlier copy is.
    Kept,
}

// Makes a collector as it must be before the first page.
#[tactic(auto, unfolding(crate::specs::Paper::start_call))]
pub fn cb_start_collector(collector: &mut [u8]) -> u32
    ensures { record { number = result; collector = collector.new } ≡ start_call collector.old }
{
    let Some(collector) = collector.as_mut_array::<COLLECTOR>() else {
        return u32::from(u8::from(Refusal::StateImproper));
    };
    clear(collector);
    0
}

// Takes a page; a message that it makes whole is written to output.
pub fn cb_collect(collector: &mut [u8], page: &[u8], received: usize, output: &mut [u8]) -> u32
    ensures { record { returned = result; collector = collector.new; output = output.new } ≡ collect_call collector.old page.now received output.old }
{
    let answer = collect(collector, page, received, output);
    match answer {
        Ok(Answer::HandedOut(pages)) => 256 * u32::from(pages),
        Ok(Answer::Kept) => 1,
        Err(refusal) => u32::from(u8::from(refusal)),
    }
}

// The same with an answer for Rattle.
pub fn collect(
    collector: &mut [u8],
    page: &[u8],
    received: usize,
    output: &mut [u8],
) -> Result<Answer, Refusal>
    ensures { record { number = number_of_answer result; pages = pages_of_answer result; collector = collector.new; output = output.new } ≡ collected collector.old page.now received output.old }
{
    let Some(collector) = collector.as_mut_array::<COLLECTOR>() else {
        return Err(Refusal::StateImproper);
    };
    let Some(count) = held_pages(collector) else {
        clear(collector);
        return Err(Refusal::StateImproper);
    };
    let Some(output) = output.as_mut_array::<COLLECTOR>() else {
        return Err(Refusal::OutputLength);
    };
    let Ok(page) = <&[u8; MESSAGE]>::try_from(page) else {
        return Err(Refusal::MessageLength);
    };
    if !whole_blocks(received) {
        return Err(Refusal::ReceivedOctets);
    }
    if total_of(page) < number_of(page) {
        return Err(Refusal::PageOverTotal);
    }
    Ok(take_page(collector, count, page, received as u8, output))
}

// How many pages are held, if the collector is proper.
#[tactic(auto, using(std::proofs::lemmas::Bool::Decides::nat_tests))]
fn held_pages(collector: &[u8; COLLECTOR]) -> Option<usize>
    ensures { pages_of result ≡ pages_in collector.now }
{
    let total = collector[0] as usize;
    let mut count: usize = 0;
    for i in 0..PAGES {
        let received = collector[FRONT + HELD * i];
        if received != 0 {
            if total <= i {
                return None;
            }
            if !whole_blocks(received as usize) {
                return None;
            }
            count += 1;
        }
    }
    if total == 0 {
        return Some(0);
    }
    if PAGES < total {
        return None;
    }
    if count == 0 {
        return None;
    }
    if count == total {
        return None;
    }
    Some(count)
}

// The number of a page.
#[tactic(auto, unfolding(crate::specs::Paper::page_number, page::specs::Paper::header))]
fn number_of(page: &[u8; MESSAGE]) -> u8
    ensures { result ≡ page_number page.now }
{
    page::parameter_read(page[5]) / 16
}

// The total of its message.
#[tactic(auto, unfolding(crate::specs::Paper::page_total, page::specs::Paper::header))]
fn total_of(page: &[u8; MESSAGE]) -> u8
    ensures { result ≡ page_total page.now }
{
    page::parameter_read(page[5]) % 16
}

// Takes a page that is not refused, into a collector that holds so many.
fn take_page(
    collector: &mut [u8; COLLECTOR],
    count: usize,
    page: &[u8; MESSAGE],
    received: u8,
    output: &mut [u8; COLLECTOR],
) -> Answer
    requires { Takes page.now received × Holds collector.old count }
    ensures { record { number = number_of_answer (Ok result); pages = pages_of_answer (Ok result); collector = collector.new; output = output.new } ≡ moved (settled (with_page (goes_on collector.old page.now) page.now received)) output.old }
{
    if !is_of(collector, page) {
        begin(collector, page);
        return add(collector, 0, page, received, output);
    }
    if collector[FRONT + HELD * (number_of(page) as usize - 1)] != 0 {
        return Answer::Kept;
    }
    add(collector, count, page, received, output)
}

// Whether a page is of the message that is collected. The coding scheme has no say.
fn is_of(collector: &[u8; COLLECTOR], page: &[u8; MESSAGE]) -> bool
    ensures { result ≡ is_of collector.now page.now }
{
    if collector[0] != total_of(page) {
        return false;
    }
    if page::joined(collector[1], collector[2]) != page::joined(page[0], page[1]) {
        return false;
    }
    page::joined(collector[3], collector[4]) == page::joined(page[2], page[3])
}

// Begins a page's message, without the page; what was held is dropped.
fn begin(collector: &mut [u8; COLLECTOR], page: &[u8; MESSAGE])
    ensures { collector.new ≡ begun page.now }
{
    let total = total_of(page);
    empty(collector, [total, page[0], page[1], page[2], page[3]]);
}

// Adds a page that is missing, and hands the message out if that was the last.
fn add(
    collector: &mut [u8; COLLECTOR],
    count: usize,
    page: &[u8; MESSAGE],
    received: u8,
    output: &mut [u8; COLLECTOR],
) -> Answer
    requires { Takes page.now received × Adds collector.old page.now count }
    ensures { record { number = number_of_answer (Ok result); pages = pages_of_answer (Ok result); collector = collector.new; output = output.new } ≡ moved (settled (put collector.old (page_number page.now - 1) page.now received)) output.old }
{
    let total = total_of(page);
    put_page(collector, number_of(page) as usize - 1, page, received);
    if count + 1 == total as usize {
        hand_out(collector, total as usize, output);
        return Answer::HandedOut(total);
    }
    Answer::Kept
}

// Puts a page at its place, counted from 0, with the octets received.
// Stays by way of a local array: the compiler knows it apart from the collector, so that it is moved in a few steps and not octet by octet.
fn put_page(collector: &mut [u8; COLLECTOR], i: usize, page: &[u8; MESSAGE], received: u8)
    requires { i < 15 }
    ensures { collector.new ≡ put collector.old i page.now received }
{
    let mut held = [received; HELD];
    octets::copy(page, &mut held[1..]);
    let at = FRONT + HELD * i;
    octets::copy(&held, &mut collector[at..at + HELD]);
}

// Copies a whole message to output, and leaves the collector as at start.
fn hand_out(collector: &mut [u8; COLLECTOR], total: usize, output: &mut [u8; COLLECTOR])
    requires { total ≤ 15 }
    ensures { (collector.new ≡ start) × (output.new ≡ take (page_place total) collector.old ++ blanks (15 - total)) }
{
    let end = FRONT + HELD * total;
    octets::copy(&collector[..end], &mut output[..end]);
    blank_pages(output, total);
    clear(collector);
}

// The collector as at start.
#[tactic(auto, unfolding(crate::specs::Paper::start))]
fn clear(collector: &mut [u8; COLLECTOR])
    ensures { collector.new ≡ start }
{
    empty(collector, [0; FRONT]);
}

// A collector that holds no page, with these octets in front.
fn empty(collector: &mut [u8; COLLECTOR], front: [u8; FRONT])
    ensures { collector.new ≡ front ++ blanks 15 }
{
    octets::copy(&front, &mut collector[..FRONT]);
    blank_pages(collector, 0);
}

// Makes the pages from one on, counted from 0, such as are not held.
fn blank_pages(memory: &mut [u8; COLLECTOR], from: usize)
    requires { from ≤ 15 }
    ensures { memory.new ≡ take (page_place from) memory.old ++ blanks (15 - from) }
{
    let mut blank = [FILLER; HELD];
    blank[0] = 0;
    for i in from..PAGES {
        let at = FRONT + HELD * i;
        octets::copy(&blank, &mut memory[at..at + HELD]);
    }
}
