// The refusals of the documents' table of numbers, and the rules that a slot can break, in words, for whoever does not have them at hand.
#![tactic(auto)]

ghost use Rattle.std.specs.Prelude.{◌≡◌};
ghost use Rattle.refusals.specs.Number.{number_of};
ghost use Rattle.lines.specs.Paper.{behind};
ghost use Rattle.words.specs.Paper.{words, rule_words};

use lines::Text;
use refusals::Refusal;

// Puts the words of a refusal behind a text. Where they do not fit, nothing is put.
pub fn put_words(refusal: Refusal, line: &mut Text)
    ensures put { record { end = line.new.end; text = line.new.memory.now } ≡ behind (words (number_of refusal)) line.old.end line.old.memory.now }
    ensures same { line.new.memory.ghost_name ≡ line.old.memory.ghost_name }
{
    line.put(words_of(refusal).as_bytes());
}

// The words of a refusal.
// Stays a function, and no From or Display: the words are the programs' alone, and Refusal and those traits are of other crates.
#[tactic(auto, unfolding(crate::specs::Paper::find, lines::specs::Paper::ascii))]
fn words_of(refusal: Refusal) -> &'static str
    ensures { result.now ≡ words (number_of refusal) }
{
    match refusal {
        Refusal::PieceLength => "the piece is not 23 octets long",
        Refusal::Discriminator => "the block's link discriminator is not 01",
        Refusal::ReservedCode => "the block's sequence code is reserved",
        Refusal::NullCode => "the block is a null block",
        Refusal::NotNext => "the block is not the next one of its message",
        Refusal::StateImproper => "the state is not one that the intake leaves",
        Refusal::TextLength => "the text is over 93 septets long",
        Refusal::NotInAlphabet => "a character is in neither table of GSM 03.38",
        Refusal::EndsInCr => "the text ends in CR",
        Refusal::Scheme => "the coding scheme is above 0F",
        Refusal::PageParameter =>
            "the page parameter has a zero half, or its page is over its total",
        Refusal::OutputLength => "the output has the wrong length",
        Refusal::MessageLength => "the message is not 88 octets long",
        Refusal::UsedOctets => "the used octets are 0 or over 88",
        Refusal::ReceivedOctets => "the octets received are not 22, 44, 66 or 88",
        Refusal::ScheduleType => "the message's type is not 00",
        Refusal::BeginOrEnd => "Begin is not 1 to End, or End is over 48",
        Refusal::NewPastEnd => "a slot past End has its new bit set",
        Refusal::DescriptionPastReceived => "a description passes the octets received",
        Refusal::RepeatOfNoFirst => "a repeat names no first transmission before it",
        Refusal::PlanMark => "the file does not begin with CBP",
        Refusal::PlanVersion => "the file's version is not 1",
        Refusal::PlanLength =>
            "the file is short, counts over 48 slots, or is not as long as it counts",
        Refusal::DescriptionsTooLong => "the descriptions need over 80 octets",
        Refusal::PlanEmpty => "the current plan has no slots",
        Refusal::PlanKind => "an entry's kind is none of 0, 1, 2",
        Refusal::PlanStray => "an entry with no page has octets of a page",
        Refusal::Untrue => "End is not the plan's number of slots",
        Refusal::SlotNumber => "the slot is not 1 to 48",
        Refusal::WantedCount => "over 64 identifiers are wanted",
        Refusal::PageOverTotal => "the page's number is over its total",
    }
}

// Puts the words of a rule that a slot breaks; a number that is no rule has none.
// Stays a number, here and below: checker::check_slots lends its verdicts as octets.
pub fn put_rule(rule: u8, line: &mut Text)
    ensures put { record { end = line.new.end; text = line.new.memory.now } ≡ behind (rule_words rule) line.old.end line.old.memory.now }
    ensures same { line.new.memory.ghost_name ≡ line.old.memory.ghost_name }
{
    line.put(words_of_rule(rule).as_bytes());
}

// The words of a rule, or none.
#[tactic(auto, unfolding(crate::specs::Paper::find, lines::specs::Paper::ascii))]
fn words_of_rule(rule: u8) -> &'static str
    ensures { result.now ≡ rule_words rule }
{
    match rule {
        1 => "no first transmission of its page, nor advised",
        2 => "no repeat of its first slot, nor advised or optional",
        3 => "planned optional, but not told as optional",
        4 => "planned advised, but not told as advised",
        5 => "its new bit is wrong",
        _ => "",
    }
}
