// A file whose shape section passed: what the sections after it are read by (document 01, "Bale file").
ghost use Rattle.std.specs.Prelude.{◌≡◌};
ghost use Rattle.refusals.specs.Definitions.Outcomes.{outcome};
ghost use Rattle.bale.specs.Definitions.Reader.{settings_in, note_in, shape_section_refusal, body_refusal};

use crate::{Bale, checking, finding, places};
use pyramid::Shape;
use refusals::Refusal;

// A file, and the lawful shape of the settings in it.
#[derive(Clone, Copy)]
pub struct ShapedFile<'a> {
    pub bytes: &'a [u8],
    pub shape: Shape,
    pub ghost read: { shape.settings ≡ settings_in bytes.now },
}

impl<'a> ShapedFile<'a> {
    ghost use Rattle.bale.specs.Inner.Files.{file_bytes};

    // The file, or the first rule that its shape section breaks.
    pub fn new(bytes: &'a [u8]) -> Result<ShapedFile<'a>, Refusal>
        ensures { file_bytes result ≡ outcome (shape_section_refusal bytes.now) bytes.now }
    {
        let count = finding::count_in(bytes);
        checking::check_section(bytes, count, 2)?;
        let settings = finding::settings_in(bytes);
        if count != places::shape_count(settings) {
            return Err(Refusal::Count);
        }
        let shape = Shape::new(settings)?;
        Ok(ShapedFile { bytes, shape })
    }

    // What the file says of its bale, or the first rule that the sections after the shape break.
    pub fn bale(&self) -> Result<Bale, Refusal>
        ensures { result ≡ outcome (body_refusal self.now.bytes.now)
            (record { settings = settings_in self.now.bytes.now; note = note_in self.now.bytes.now (settings_in self.now.bytes.now) }) }
    {
        self.check_bins()?;
        let note = self.note()?;
        self.check_levels()?;
        Ok(Bale {
            settings: self.shape.settings,
            note,
        })
    }
}
