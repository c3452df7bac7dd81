// The tests of numbers 11 and 20: the value of every index of a level, which is the index times the level's bin, lies within 4,096 of 0; every
// pixel lies between black and white.
ghost use Rattle.std.specs.Prelude.{◌≡◌, map};
ghost use Rattle.mathematics.specs.Definitions.Tests.{all};
ghost use Rattle.quantizer.specs.Definitions.Values.{pair_index};
ghost use Rattle.pyramid.specs.Definitions.Refusals.{index_ok, pixels_ok};

use crate::LawfulSettings;

const LIMIT: u16 = 4096;

// Whether indices pass.
pub fn indices_ok(indices: &[i16], bin: u16) -> bool
    ensures { result ≡ all (index_ok bin) indices.now }
{
    quantizer::indices_within(indices, bin, LIMIT)
}

// Whether they pass where they lie in a file, two bytes each, low byte first.
pub fn index_pairs_ok(pairs: &[[u8; 2]], bin: u16) -> bool
    ensures { result ≡ all (index_ok bin) (map pair_index pairs.now) }
{
    quantizer::pairs_within(pairs, bin, LIMIT)
}

// Whether every pixel lies between black and white.
// Kept: no pixel ends the loop, so that the compiler looks at sixteen at a time.
pub fn pixels_ok(lawful: LawfulSettings, picture: &[u8]) -> bool
    ensures { result ≡ pixels_ok lawful picture.now }
{
    let black = lawful.settings.black as u8;
    let white = lawful.settings.white as u8;
    let mut ok = true;
    for &pixel in picture {
        ok = ok & (black <= pixel) & (pixel <= white);
    }
    ok
}
