// Where the sections of a file stand (document 01, "Bale file"; document 02, P5): each starts with its count, and where black is 0 and white is
// 255 the shape has four numbers, else six.
// Kept: places, and no cursor. The settings are read past the file's end too, where a cursor has nothing to read (finding.rt), and each
// section after the shape stands at a place that the settings alone give, so that no method hands on what is left of the file to the next.
// Kept: the bounds in what these promise, so that sums of them are seen to fit without a lemma.
ghost use Rattle.std.specs.Prelude.{◌≡◌, ◌≤◌};
ghost use Rattle.bale.specs.Definitions.Files.{shape_count};
ghost use Rattle.bale.specs.Definitions.Reader.{after_shape, bins_place, readings_place, drier_place, press_place, levels_place};

use pyramid::Settings;

// How many numbers the shape has.
#[tactic(auto, unfolding(crate::specs::Definitions::Files::shape_count))]
pub fn shape_count(s: Settings) -> u16
    ensures { (result ≡ shape_count s) × (result ≤ 6) }
{
    if s.black == 0 && s.white == 255 { 4 } else { 6 }
}

// What comes after a shape of so many numbers.
pub fn after_shape(count: u16) -> usize
    ensures { result ≡ after_shape count }
{
    2 + 2 * count as usize
}

// The bins, after the shape.
pub fn bins(s: Settings) -> usize
    ensures { (result ≡ bins_place s) × (result ≤ 14) }
{
    after_shape(shape_count(s))
}

// The readings, after the bins of the levels above level 0, and of level 0.
pub fn readings(s: Settings) -> usize
    ensures { (result ≡ readings_place s) × (result ≤ 131088) }
{
    bins(s) + 2 + 2 * (s.depth as usize + 1)
}

// The reading before the drier, after the count.
pub fn drier(s: Settings) -> usize
    ensures { (result ≡ drier_place s) × (result ≤ 131090) }
{
    readings(s) + 2
}

// The reading at the press, after the one before the drier.
pub fn press(s: Settings) -> usize
    ensures { result ≡ press_place s }
{
    drier(s) + 5
}

// The levels, after the two readings.
pub fn levels(s: Settings) -> usize
    ensures { result ≡ levels_place s }
{
    readings(s) + 12
}
