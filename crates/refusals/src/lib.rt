// Why a sheet or a call is turned down, with number and place: document 01, 'Why a sheet is turned down', and document 02, W5 and W6.
#![tactic(auto)]

ghost use Rattle.std.specs.Prelude.{◌≡◌};
ghost use Rattle.refusals.specs.Refusals.{refusal_number, refusal_place};

// Document 01's list in its order, then document 02's, each case with its place where that is not 0.
#[derive(Clone, Copy, Debug, PartialEq, Eq)]
pub enum Refusal {
    SheetTooLong,
    SheetEnds(u16),
    CommandNotAllowed(u16),
    OperandOutOfRange(u16),
    ToneBeyondLine(u16),
    ToneRepeated(u16),
    BytesAfterEnd(u16),
    DestinationTooSmall,
    StartLengthWrong,
    StartAboveLimit(u16),
    TargetNotCarried,
    FloatOutOfRange(u16),
    CostOutOfRange(u16),
    ToneCannotTake(u16),
    RestOutOfRange(u16),
    RestsOverBudget,
}

impl Refusal {
    // The number of a refusal in the documents' list.
    pub fn number(self) -> u32
        ensures { result ≡ refusal_number self }
    {
        match self {
            Refusal::SheetTooLong => 1,
            Refusal::SheetEnds(_) => 2,
            Refusal::CommandNotAllowed(_) => 3,
            Refusal::OperandOutOfRange(_) => 4,
            Refusal::ToneBeyondLine(_) => 5,
            Refusal::ToneRepeated(_) => 6,
            Refusal::BytesAfterEnd(_) => 7,
            Refusal::DestinationTooSmall => 8,
            Refusal::StartLengthWrong => 9,
            Refusal::StartAboveLimit(_) => 10,
            Refusal::TargetNotCarried => 11,
            Refusal::FloatOutOfRange(_) => 12,
            Refusal::CostOutOfRange(_) => 13,
            Refusal::ToneCannotTake(_) => 14,
            Refusal::RestOutOfRange(_) => 15,
            Refusal::RestsOverBudget => 16,
        }
    }

    // The place of a refusal.
    pub fn place(self) -> u32
        ensures { result ≡ refusal_place self }
    {
        match self {
            Refusal::SheetTooLong => 0,
            Refusal::SheetEnds(place) => place as u32,
            Refusal::CommandNotAllowed(place) => place as u32,
            Refusal::OperandOutOfRange(place) => place as u32,
            Refusal::ToneBeyondLine(place) => place as u32,
            Refusal::ToneRepeated(place) => place as u32,
            Refusal::BytesAfterEnd(place) => place as u32,
            Refusal::DestinationTooSmall => 0,
            Refusal::StartLengthWrong => 0,
            Refusal::StartAboveLimit(place) => place as u32,
            Refusal::TargetNotCarried => 0,
            Refusal::FloatOutOfRange(place) => place as u32,
            Refusal::CostOutOfRange(place) => place as u32,
            Refusal::ToneCannotTake(place) => place as u32,
            Refusal::RestOutOfRange(place) => place as u32,
            Refusal::RestsOverBudget => 0,
        }
    }
}
