// The picture pyramid of document 01: settings, coding, rebuilding, the bound and the deepest depth.
#![tactic(auto)]

ghost use Rattle.std.specs.Prelude.{◌≡◌, T, length};
ghost use Rattle.refusals.specs.Definitions.Outcomes.{outcome};
ghost use Rattle.pyramid.specs.declared.Manner.TheVariants.{OpenLoop, ClosedLoop};
ghost use Rattle.pyramid.specs.Definitions.Answers.{nodes_answer, shape_answer, size_of, level_size_answer, bounds_answer, deepest_answer};
ghost use Rattle.pyramid.specs.Definitions.Pyramid.{average};
ghost use Rattle.pyramid.specs.Definitions.Rebuilding.{rebuilt, clamp};
ghost use Rattle.pyramid.specs.Definitions.Manners.{reference, index};
ghost use Rattle.pyramid.specs.Definitions.Buffers.{raster, pixels, all_levels, read_levels};
ghost use Rattle.pyramid.specs.Definitions.Refusals.{lent_refusal, values_ok, levels_refusal};
ghost use Rattle.pyramid.specs.Definitions.Calls.{in_work, coding, rebuilding};
ghost use Rattle.pyramid.specs.Inner.Accepted.{Sized};

use refusals::Refusal;

mod averaging;
mod bounding;
mod checking;
mod copying;
mod counting;
mod expanding;
mod layering;
mod levels;
mod limits;
mod rasters;
mod shapes;
mod taps;

// The first rule that settings break. Refused: 1, 13, 14, 15, 2, 19, 3.
pub use checking::check_settings;

// Settings that are known to be lawful: the shape, and all of them.
pub use shapes::{LawfulSettings, Shape};

// Whether every index of a level, as pairs of bytes where they lie in a file, times its bin lies within 4,096 of 0.
pub use limits::index_pairs_ok;

// Kept: seven slots, of which the depth says how many count: the settings as the documents have them, and C hands them over (C interface).
// Columns, rows, depth, kernel, the camera's black and white, and the bin of each level in its slot (document 01, "Settings"; document 02, P5).
#[derive(Clone, Copy)]
pub struct Settings {
    pub columns: u16,
    pub rows: u16,
    pub depth: u16,
    pub kernel: u16,
    pub black: u16,
    pub white: u16,
    pub bins: [u16; 7],
}

// How a picture is coded: each level below the top is predicted from the average above it, or from the level above as it was rebuilt
// (document 02, P4).
#[derive(Clone, Copy)]
pub enum Manner {
    OpenLoop,
    ClosedLoop,
}

// The columns and rows of a picture or of a level.
#[derive(Clone, Copy, PartialEq, Eq)]
pub struct Dimensions {
    pub columns: u16,
    pub rows: u16,
}

// T, the number of nodes of all levels. Refused: 1, 13, 14, 15, 2, 19, 3.
pub fn total_nodes(s: Settings) -> Result<u16, Refusal>
    ensures { result ≡ outcome (nodes_answer s).refusal (nodes_answer s).nodes }
{
    let lawful = LawfulSettings::new(s)?;
    Ok(lawful.shape().nodes())
}

// T of a shape, whose bins are not looked at. Refused: 1, 13, 14, 15, 2, 19.
pub fn shape_nodes(s: Settings) -> Result<u16, Refusal>
    ensures { result ≡ outcome (shape_answer s).refusal (shape_answer s).nodes }
{
    let shape = Shape::new(s)?;
    Ok(shape.nodes())
}

// The columns and rows of a level of a shape; 0 by 0 for a level above the depth. Refused: 1, 13, 14, 15, 2, 19.
pub fn level_size(s: Settings, level: u16) -> Result<Dimensions, Refusal>
    ensures { result ≡ outcome (level_size_answer s level).refusal (size_of (level_size_answer s level)) }
{
    let shape = Shape::new(s)?;
    Ok(shape.level_size(level))
}

// How far a rebuilt value of each level can lie from its average, each in its slot; 0 in the slots above the depth. It holds whichever coder
// made the levels. Refused: 1, 13, 14, 15, 2, 19, 3.
pub fn level_bounds(s: Settings) -> Result<[u16; 7], Refusal>
    ensures { result ≡ outcome (bounds_answer s OpenLoop).refusal (bounds_answer s OpenLoop).levels }
{
    bounds_of(s, Manner::OpenLoop)
}

// The same of levels that the closed-loop coder made. Refused: 1, 13, 14, 15, 2, 19, 3.
pub fn closed_loop_bounds(s: Settings) -> Result<[u16; 7], Refusal>
    ensures { result ≡ outcome (bounds_answer s ClosedLoop).refusal (bounds_answer s ClosedLoop).levels }
{
    bounds_of(s, Manner::ClosedLoop)
}

// The bounds of levels that were coded in a manner.
fn bounds_of(s: Settings, manner: Manner) -> Result<[u16; 7], Refusal>
    ensures { result ≡ outcome (bounds_answer s manner).refusal (bounds_answer s manner).levels }
{
    let lawful = LawfulSettings::new(s)?;
    Ok(bounding::bound_slots(lawful, manner))
}

// Kept: columns and rows one by one, here and in what tests them: they are asked about before they are known to be the dimensions of a picture, of
// 16 bits from C (C interface) or of 32 in a PGM file's header.
// The deepest depth that a size allows. Refused: 1, on size only.
pub fn deepest_depth(columns: u16, rows: u16) -> Result<u16, Refusal>
    ensures { result ≡ outcome (deepest_answer columns rows).refusal (deepest_answer columns rows).depth }
{
    if !checking::size_ok(columns, rows) {
        return Err(Refusal::Size);
    }
    Ok(checking::deepest(columns, rows))
}

// Whether rebuilding can take a level buffer, whatever the others are. Refused: 1, 13, 14, 15, 2, 19, 3, 6, 11.
pub fn check_levels(s: Settings, levels: &[i16]) -> Result<(), Refusal>
    ensures { result ≡ outcome (levels_refusal s levels.now) tt }
{
    let lawful = LawfulSettings::new(s)?;
    lawful.check_levels(levels)
}

// The settings, or the first rule that they or the buffers' lengths break.
fn accepted(
    s: Settings,
    picture: usize,
    levels: usize,
    work: usize,
) -> Result<LawfulSettings, Refusal>
    ensures { result ≡ outcome (lent_refusal s picture levels work) s }
{
    let lawful = LawfulSettings::new(s)?;
    if picture != s.rows as usize * s.columns as usize {
        return Err(Refusal::PictureLength);
    }
    let t = lawful.shape().total();
    if levels != t {
        return Err(Refusal::LevelsLength);
    }
    if work < t {
        return Err(Refusal::WorkLength);
    }
    Ok(lawful)
}

// Kept: the three buffers one by one, as in the exported functions: a coding writes two of them, a rebuilding two others.
// Codes a picture, open-loop: its indices in the level buffer, its averages in the work buffer.
// Refused: 1, 13, 14, 15, 2, 19, 3, 5, 6, 7, 20.
pub fn coding(
    s: Settings,
    picture: &[u8],
    levels: &mut [i16],
    work: &mut [i32],
) -> Result<(), Refusal>
    ensures value { result ≡ outcome (coding s OpenLoop picture.now levels.old work.old).answer tt }
    ensures levels_after { levels.new ≡
        (coding s OpenLoop picture.now levels.old work.old).levels }
    ensures work_after { work.new ≡
        (coding s OpenLoop picture.now levels.old work.old).work }
{
    code_picture(s, Manner::OpenLoop, picture, levels, work)
}

// Codes a picture, closed-loop: its indices in the level buffer and, in the work buffer, what rebuilding from these leaves there: the unclamped
// values of all levels.
// Refused: 1, 13, 14, 15, 2, 19, 3, 5, 6, 7, 20.
pub fn closed_loop_coding(
    s: Settings,
    picture: &[u8],
    levels: &mut [i16],
    work: &mut [i32],
) -> Result<(), Refusal>
    ensures value { result ≡ outcome (coding s ClosedLoop picture.now levels.old work.old).answer tt }
    ensures levels_after { levels.new ≡
        (coding s ClosedLoop picture.now levels.old work.old).levels }
    ensures work_after { work.new ≡
        (coding s ClosedLoop picture.now levels.old work.old).work }
{
    code_picture(s, Manner::ClosedLoop, picture, levels, work)
}

// Codes a picture in a manner.
fn code_picture(
    s: Settings,
    manner: Manner,
    picture: &[u8],
    levels: &mut [i16],
    work: &mut [i32],
) -> Result<(), Refusal>
    ensures value { result ≡ outcome (coding s manner picture.now levels.old work.old).answer tt }
    ensures levels_after { levels.new ≡
        (coding s manner picture.now levels.old work.old).levels }
    ensures work_after { work.new ≡
        (coding s manner picture.now levels.old work.old).work }
{
    let lawful = accepted(s, picture.len(), levels.len(), work.len())?;
    if !limits::pixels_ok(lawful, picture) {
        return Err(Refusal::Pixel);
    }
    code(lawful, manner, picture, levels, work);
    Ok(())
}

fn code(
    lawful: LawfulSettings,
    manner: Manner,
    picture: &[u8],
    levels: &mut [i16],
    work: &mut [i32],
)
    requires { Sized lawful (length picture.now) (length levels.old) (length work.old) }
    ensures levels_after { levels.new ≡
        all_levels lawful (index lawful manner (average lawful (pixels lawful.columns picture.now))) }
    ensures work_after { work.new ≡
        in_work lawful (reference lawful manner (average lawful (pixels lawful.columns picture.now))) work.old }
{
    let level = lawful.level(0);
    let from = level.start();
    copying::load(picture, &mut work[from..from + level.nodes()]);
    layering::average_levels(lawful, work);
    layering::code_levels(lawful, manner, work, levels);
}

// Rebuilds a picture from its level buffer: the unclamped values in the work buffer, the clamped ones in the picture.
// Refused: 1, 13, 14, 15, 2, 19, 3, 5, 6, 7, 11.
pub fn rebuilding(
    s: Settings,
    levels: &[i16],
    picture: &mut [u8],
    work: &mut [i32],
) -> Result<(), Refusal>
    ensures value { result ≡ outcome (rebuilding s levels.now picture.old work.old).answer tt }
    ensures picture_after { picture.new ≡
        (rebuilding s levels.now picture.old work.old).picture }
    ensures work_after { work.new ≡
        (rebuilding s levels.now picture.old work.old).work }
{
    let lawful = accepted(s, picture.len(), levels.len(), work.len())?;
    if !layering::values_ok(lawful, levels) {
        return Err(Refusal::Index);
    }
    rebuild(lawful, levels, picture, work);
    Ok(())
}

fn rebuild(lawful: LawfulSettings, levels: &[i16], picture: &mut [u8], work: &mut [i32])
    requires sized { Sized lawful (length picture.old) (length levels.now) (length work.old) }
    requires t { T (values_ok lawful levels.now) }
    ensures picture_after { picture.new ≡
        raster lawful.columns lawful.rows (λ i j. clamp lawful (rebuilt lawful (read_levels lawful levels.now) 0 i j)) }
    ensures work_after { work.new ≡ in_work lawful (rebuilt lawful (read_levels lawful levels.now)) work.old }
{
    let level = lawful.level(0);
    layering::value_levels(lawful, levels, work);
    let from = level.start();
    copying::clamp_all(lawful, &work[from..from + level.nodes()], picture);
}
