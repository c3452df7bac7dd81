// Answers that another implementation's data name by a number: 0 where a call is accepted, else the number of the refusal.
ghost use Rattle.std.specs.Prelude.{◌≡◌, ◌≤◌, ◌<◌, Some, None};
ghost use Rattle.refusals.specs.Definitions.Outcomes.{outcome};
ghost use Rattle.refusals.specs.Checks.Numbers.{greatest};

use refusals::Refusal;

// Kept: a match here and no `TryFrom<u16>` of `Refusal`, since the product never reads a refusal's number: another implementation's
// data alone hold it, which only the tests read.
// What a number stands for: this value, or a refusal; nothing where the documents have no such number.
#[tactic(auto, unfolding(refusals::specs::Definitions::Outcomes::outcome))]
pub fn answer_of<T: Copy>(number: u16, value: T) -> Option<Result<T, Refusal>>
    ensures known { number ≤ greatest → result ≡ Some (outcome number value) }
    ensures unknown { greatest < number → result ≡ None }
{
    let refusal = match number {
        0 => return Some(Ok(value)),
        1 => Refusal::Size,
        2 => Refusal::Kernel,
        3 => Refusal::Bin,
        4 => Refusal::Reading,
        5 => Refusal::PictureLength,
        6 => Refusal::LevelsLength,
        7 => Refusal::WorkLength,
        8 => Refusal::FileLength,
        9 => Refusal::FileEnds,
        10 => Refusal::Count,
        11 => Refusal::Index,
        12 => Refusal::BytesAfter,
        13 => Refusal::Depth,
        14 => Refusal::Columns,
        15 => Refusal::Rows,
        16 => Refusal::Header,
        17 => Refusal::Greatest,
        18 => Refusal::PixelCount,
        19 => Refusal::BlackWhite,
        20 => Refusal::Pixel,
        21 => Refusal::Place,
        _ => return None,
    };
    Some(Err(refusal))
}
