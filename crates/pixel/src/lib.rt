// One pixel of a picture, from the indices that it depends on (document 02, P6).
#![tactic(auto)]

ghost use Rattle.std.specs.Prelude.{◌≡◌};
ghost use Rattle.refusals.specs.Definitions.Outcomes.{outcome};
ghost use Rattle.pixel.specs.Definitions.Pixel.{pixel_answer, answered};

mod axes;
mod placing;
mod reading;
mod rebuilding;
mod sums;
mod windows;

use pyramid::{LawfulSettings, Settings};
use refusals::Refusal;
use windows::Asked;

// A pixel as it is shown, and how many indices were read for it.
#[derive(Clone, Copy, PartialEq, Eq)]
pub struct RebuiltPixel {
    pub pixel: u8,
    pub read: u16,
}

// Rebuilds the pixel at a column and row from the indices of its windows, and from no others.
// Refused: 1, 13, 14, 15, 2, 19, 3, 6, 21, 11.
pub fn rebuild_pixel(
    s: Settings,
    levels: &[i16],
    column: u16,
    row: u16,
) -> Result<RebuiltPixel, Refusal>
    ensures { result ≡ outcome (pixel_answer s column row levels.now).refusal
        (answered (pixel_answer s column row levels.now)) }
{
    let lawful = LawfulSettings::new(s)?;
    if levels.len() != usize::from(lawful.shape().nodes()) {
        return Err(Refusal::LevelsLength);
    }
    if s.columns <= column || s.rows <= row {
        return Err(Refusal::Place);
    }
    match Asked::new(lawful, column, row).rebuild(levels) {
        Some(pixel) => Ok(pixel),
        None => Err(Refusal::Index),
    }
}
