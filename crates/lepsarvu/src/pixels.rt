// One pixel (document 02, P6) for programs in C or Rust: numbers and slices alone. include/lepsarvu.h declares the function.
// Kept: numbers for refusals, and what is handed out one by one, in the exported function: the C interface.
ghost use Rattle.std.specs.Prelude.{◌≡◌};
ghost use Rattle.refusals.specs.Definitions.Outcomes.{answer_number};
ghost use Rattle.pyramid.specs.Definitions.Calls.{leaves};
ghost use Rattle.pixel.specs.Definitions.Pixel.{pixel_answer};
ghost use Rattle.lepsarvu.specs.Definitions.Exports.{settings_of};
ghost use Rattle.lepsarvu.specs.Inner.Given.{given};

use crate::{give, settings_of};
use pixel::RebuiltPixel;
use refusals::Refusal;

// A pixel, and how many indices were read for it, into what was lent for them.
#[tactic(auto, unfolding(crate::specs::Inner::Given::given, refusals::specs::Definitions::Outcomes::answer_number))]
fn give_pixel(answer: Result<RebuiltPixel, Refusal>, pixel: &mut u8, read: &mut u16) -> u16
    ensures value { result ≡ answer_number answer }
    ensures pixel_after { pixel.new ≡ given answer (λ p. p.pixel) pixel.old }
    ensures read_after { read.new ≡ given answer (λ p. p.read) read.old }
{
    give(answer.map(|p| p.pixel), pixel);
    give(answer.map(|p| p.read), read)
}

pub fn lepsarvu_rebuild_pixel(
    settings: &[u16; 13],
    levels: &[i16],
    column: u16,
    row: u16,
    pixel: &mut u8,
    read: &mut u16,
) -> u16
    ensures value { result ≡ (pixel_answer (settings_of settings.now) column row levels.now).refusal }
    ensures pixel_after { pixel.new ≡
        leaves result (pixel_answer (settings_of settings.now) column row levels.now).pixel pixel.old }
    ensures read_after { read.new ≡
        leaves result (pixel_answer (settings_of settings.now) column row levels.now).read read.old }
{
    let s = settings_of(settings);
    let answer = pixel::rebuild_pixel(s, levels, column, row);
    give_pixel(answer, pixel, read)
}
