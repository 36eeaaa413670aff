// The refusals, each named as higman's Refusals.antt names its number beside the papers' words. The promises of the calls speak of
// the cases, and that each case has the right number is proved with `From`.
ghost use Rattle.std.specs.Prelude.{◌≡◌};
ghost use Rattle.operations.specs.Refusals.{number_of};

// Why a job is not done. Its number is the paper's.
#[derive(Clone, Copy, PartialEq, Eq, Debug)]
pub enum Refusal {
    NoRecord = 1,
    WrongState = 2,
    ShapeOutside = 3,
    BadWord = 4,
    PairsFull = 5,
    WordsOverlap = 6,
    RootUncovered = 7,
    SlotOutside = 8,
    SlotEmpty = 9,
    ShapesDiffer = 10,
    LimitBroken = 11,
    PowerOutside = 12,
    CodeTooShort = 13,
    BufferTooShort = 14,
    InvalidValue = 15,
    CountFull = 16,
    SeedOutside = 17,
    StationOutside = 18,
    StationRefused = 19,
    RightMissing = 20,
}

impl From<Refusal> for u8 {
    ghost use Rattle.operations.specs.Refusals.{number_of};

    ghost from_gives = { λ refusal number. number ≡ number_of refusal };

    fn from(refusal: Refusal) -> u8 {
        refusal as u8
    }
}
