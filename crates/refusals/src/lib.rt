// The refusals of the documents' table of numbers, each with its number.
#![tactic(auto)]

ghost use Rattle.std.specs.Prelude.{◌≡◌};
ghost use Rattle.refusals.specs.Number.{number_of};

#[derive(Clone, Copy, Debug, PartialEq, Eq)]
pub enum Refusal {
    // piece not 23 octets
    PieceLength,
    // discriminator not 01
    Discriminator,
    // reserved sequence code
    ReservedCode,
    // null sequence code
    NullCode,
    // second to fourth block, but not the next one
    NotNext,
    // state not proper, or a lent state not 90 octets; collector not proper, or not 1,340 octets
    StateImproper,
    // text over 93 septets
    TextLength,
    // a character that is neither in the alphabet nor in its extension table
    NotInAlphabet,
    // text ends in CR
    EndsInCr,
    // coding scheme above 0F
    Scheme,
    // page parameter written with a zero half, or page over total
    PageParameter,
    // output of the wrong length
    OutputLength,
    // page or message not 88 octets
    MessageLength,
    // used octets 0 or over 88
    UsedOctets,
    // received octets not 22, 44, 66 or 88
    ReceivedOctets,
    // schedule message type not 00
    ScheduleType,
    // Begin or End outside its rule
    BeginOrEnd,
    // a new bit set past End
    NewPastEnd,
    // a description passes the received octets
    DescriptionPastReceived,
    // a repeat's number is 0, not below its own slot, or names no first transmission
    RepeatOfNoFirst,
    // plan file without its mark
    PlanMark,
    // plan file of another version
    PlanVersion,
    // plan file short, count over 48, or length not as counted
    PlanLength,
    // descriptions need over 80 octets
    DescriptionsTooLong,
    // current plan's count is 0
    PlanEmpty,
    // entry kind over 2
    PlanKind,
    // stray octets in an entry of kind 0 or 1
    PlanStray,
    // untrue beside the plans
    Untrue,
    // slot not 1 to 48
    SlotNumber,
    // over 64 wanted identifiers
    WantedCount,
    // a page to be collected is over its total
    PageOverTotal,
}

// The refusal's number in the table.
impl From<Refusal> for u8 {
    ghost from_gives = { λ refusal n. n ≡ number_of refusal };

    fn from(refusal: Refusal) -> u8 {
        match refusal {
            Refusal::PieceLength => 2,
            Refusal::Discriminator => 3,
            Refusal::ReservedCode => 4,
            Refusal::NullCode => 5,
            Refusal::NotNext => 6,
            Refusal::StateImproper => 8,
            Refusal::TextLength => 10,
            Refusal::NotInAlphabet => 11,
            Refusal::EndsInCr => 12,
            Refusal::Scheme => 13,
            Refusal::PageParameter => 14,
            Refusal::OutputLength => 15,
            Refusal::MessageLength => 16,
            Refusal::UsedOctets => 17,
            Refusal::ReceivedOctets => 18,
            Refusal::ScheduleType => 20,
            Refusal::BeginOrEnd => 21,
            Refusal::NewPastEnd => 22,
            Refusal::DescriptionPastReceived => 23,
            Refusal::RepeatOfNoFirst => 24,
            Refusal::PlanMark => 30,
            Refusal::PlanVersion => 31,
            Refusal::PlanLength => 32,
            Refusal::DescriptionsTooLong => 34,
            Refusal::PlanEmpty => 35,
            Refusal::PlanKind => 36,
            Refusal::PlanStray => 37,
            Refusal::Untrue => 40,
            Refusal::SlotNumber => 41,
            Refusal::WantedCount => 42,
            Refusal::PageOverTotal => 50,
        }
    }
}
