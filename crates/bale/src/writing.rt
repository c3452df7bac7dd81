// What the writer answers before it writes: a file's size, and which rule is broken first (document 01, "Who can cause which refusal").
ghost use Rattle.std.specs.Prelude.{◌≡◌};
ghost use Rattle.refusals.specs.Definitions.Outcomes.{outcome};
ghost use Rattle.pyramid.specs.Definitions.Shapes.{shape_settings};
ghost use Rattle.bale.specs.Definitions.Files.{file_length};
ghost use Rattle.bale.specs.Definitions.Calls.{write_refusal};

use crate::{Note, places};
use pyramid::{LawfulSettings, Settings, Shape};
use refusals::Refusal;

// The bytes of a file of a shape.
pub fn file_length(shape: Shape) -> usize
    ensures { result ≡ file_length shape.settings }
{
    let s = shape.settings;
    16 + 2 * places::shape_count(s) as usize
        + 4 * (s.depth as usize + 1)
        + 2 * shape.nodes() as usize
}

// The shape of what the writer accepts, or the first rule that is broken.
// Kept: settings and a note, and no `Bale` of both: the settings become a shape here, and `put_file` takes the shape and the note, so that a
// Bale would be made for this call alone, and taken apart in it.
pub fn check(s: Settings, note: Note, levels: &[i16], room: usize) -> Result<Shape, Refusal>
    ensures { shape_settings result ≡ outcome (write_refusal s note levels.now room) s }
{
    let lawful = LawfulSettings::new(s)?;
    if !note.is_lawful() {
        return Err(Refusal::Reading);
    }
    let shape = lawful.shape();
    if levels.len() != shape.nodes() as usize {
        return Err(Refusal::LevelsLength);
    }
    if room < file_length(shape) {
        return Err(Refusal::FileLength);
    }
    lawful.check_levels(levels)?;
    Ok(shape)
}
