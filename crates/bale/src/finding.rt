// What a file says of its settings, and a reading (document 01, "Bale file"; document 02, P5).
// Kept: `settings_in` and `slot_in` read a file at places, past its end too: the shape's rules come before it is known that the bins are
// all there, and a bin that is not counts as 0.
ghost use Rattle.std.specs.Prelude.{◌≡◌, cond, eqb};
ghost use Rattle.refusals.specs.Definitions.Outcomes.{outcome};
ghost use Rattle.mathematics.specs.Definitions.Tables.{tabulate};
ghost use Rattle.bale.specs.Definitions.Words.{u16_at};
ghost use Rattle.bale.specs.Definitions.Reader.{count_in, slot_in, settings_in, probe_at};

use crate::{Code, Reading, places, words};
use pyramid::Settings;
use refusals::Refusal;

// The shape's count: 6 where it is 6, and else 4, which it then must be.
#[tactic(auto, unfolding(crate::specs::Definitions::Reader::count_in))]
pub fn count_in(file: &[u8]) -> u16
    ensures { result ≡ count_in file.now }
{
    if words::u16_at(file, 0) == 6 { 6 } else { 4 }
}

// Black or white where the shape has six numbers, and what it is where there are four.
fn grey_in(file: &[u8], at: usize, absent: u16) -> u16
    ensures { result ≡ cond (eqb (count_in file.now) 6) (u16_at file.now at) absent }
{
    if count_in(file) == 6 {
        words::u16_at(file, at)
    } else {
        absent
    }
}

fn slot_in(file: &[u8], depth: u16, level: u16) -> u16
    ensures { result ≡ slot_in file.now depth level }
{
    if level <= depth {
        let bins = places::after_shape(count_in(file));
        words::u16_at(file, bins + 2 + 2 * (depth - level) as usize)
    } else {
        0
    }
}

fn slots_in(file: &[u8], depth: u16) -> [u16; 7]
    ensures { result ≡ tabulate 7 (slot_in file.now depth) }
{
    std::array::from_fn(|level| slot_in(file, depth, level as u16))
}

pub fn settings_in(file: &[u8]) -> Settings
    ensures { result ≡ settings_in file.now }
{
    let depth = words::u16_at(file, 6);
    Settings {
        columns: words::u16_at(file, 2),
        rows: words::u16_at(file, 4),
        depth,
        kernel: words::u16_at(file, 8),
        black: grey_in(file, 10, 0),
        white: grey_in(file, 12, 255),
        bins: slots_in(file, depth),
    }
}

// The reading whose five bytes come first.
pub fn reading_in(code: &[u8]) -> Result<Reading, Refusal>
    ensures { result ≡ outcome (probe_at code.now 0).refusal (probe_at code.now 0).reading }
{
    Reading::try_from(Code {
        kind: words::byte_at(code, 0),
        number: words::u32_at(code, 1),
    })
}
