// The refusals of documents 01 and 02: who can cause which, and their numbers.
#![tactic(auto)]

ghost use Rattle.std.specs.Prelude.{◌≡◌};
ghost use Rattle.refusals.specs.Definitions.Numbers.{number};
ghost use Rattle.refusals.specs.Definitions.Outcomes.{answer_number};

// Each refusal, after the rule that is broken.
#[derive(Clone, Copy, PartialEq, Eq)]
pub enum Refusal {
    Size = 1,
    Kernel = 2,
    Bin = 3,
    Reading = 4,
    PictureLength = 5,
    LevelsLength = 6,
    WorkLength = 7,
    FileLength = 8,
    FileEnds = 9,
    Count = 10,
    Index = 11,
    BytesAfter = 12,
    Depth = 13,
    Columns = 14,
    Rows = 15,
    Header = 16,
    Greatest = 17,
    PixelCount = 18,
    BlackWhite = 19,
    Pixel = 20,
    Place = 21,
}

impl From<Refusal> for u16 {
    ghost from_gives = { λ refusal n. n ≡ number refusal };

    fn from(refusal: Refusal) -> u16 {
        refusal as u16
    }
}

// Kept: a number for a refusal, since the exported functions answer it (C interface).
// The number of what a call answers, for callers that know numbers alone: 0 where the call is accepted.
#[tactic(auto, unfolding(crate::specs::Definitions::Outcomes::answer_number))]
pub fn answer_number<T: Copy>(answer: Result<T, Refusal>) -> u16
    ensures { result ≡ answer_number answer }
{
    match answer {
        Ok(_) => 0,
        Err(refusal) => u16::from(refusal),
    }
}
