// Which rule is broken first by the sections of a file (document 01, "Who can cause which refusal").
ghost use Rattle.std.specs.Prelude.{◌≡◌, ◌+◌, ◌*◌, ◌/◌, ◌≤◌, length, drop};
ghost use Rattle.refusals.specs.Definitions.Outcomes.{outcome};
ghost use Rattle.mathematics.specs.Definitions.Tests.{all};
ghost use Rattle.pyramid.specs.Definitions.Sizes.{nodes_at};
ghost use Rattle.pyramid.specs.Definitions.Refusals.{index_ok};
ghost use Rattle.bale.specs.Definitions.Words.{indices_at};
ghost use Rattle.bale.specs.Definitions.Sections.{end_of, section_refusal};
ghost use Rattle.bale.specs.Definitions.Reader.{note_in, levels_place, bins_section_refusal, readings_section_refusal, level_section_refusal, level_sections_refusal};

use crate::shaped::ShapedFile;
use crate::{Note, finding, places, words};
use refusals::Refusal;

// A section's count, and whether its items are all there.
pub fn check_section(section: &[u8], count: u16, size: u8) -> Result<(), Refusal>
    ensures { result ≡ outcome (section_refusal section.now 0 count size) tt }
{
    let Some((found, items)) = section.split_first_chunk() else {
        return Err(Refusal::FileEnds);
    };
    if u16::from_le_bytes(*found) != count {
        return Err(Refusal::Count);
    }
    if items.len() < size as usize * count as usize {
        return Err(Refusal::FileEnds);
    }
    Ok(())
}

// Every index of a level times its bin lies within 4,096 of 0, where the indices lie in the file: there is no buffer to put them in.
fn indices_ok(indices: &[u8], bin: u16) -> bool
    ensures { result ≡ all (index_ok bin) (indices_at indices.now 0 (length indices.now / 2)) }
{
    let (pairs, _) = indices.as_chunks::<2>();
    pyramid::index_pairs_ok(pairs, bin)
}

impl ShapedFile<'_> {
    ghost use Rattle.bale.specs.Inner.Files.{bytes_left};

    // The section of the bins, and whether these are lawful.
    pub fn check_bins(&self) -> Result<(), Refusal>
        ensures { result ≡ outcome (bins_section_refusal self.now.bytes.now) tt }
    {
        let section = words::rest(self.bytes, places::bins(self.shape.settings));
        check_section(section, self.shape.settings.depth + 1, 2)?;
        self.shape.lawful()?;
        Ok(())
    }

    // The readings, or the first rule that their section breaks.
    pub fn note(&self) -> Result<Note, Refusal>
        ensures { result ≡ outcome (readings_section_refusal self.now.bytes.now self.now.shape.settings)
            (note_in self.now.bytes.now self.now.shape.settings) }
    {
        let s = self.shape.settings;
        let section = words::rest(self.bytes, places::readings(s));
        check_section(section, 2, 5)?;
        let drier = words::rest(self.bytes, places::drier(s));
        let press = words::rest(self.bytes, places::press(s));
        let before_drier = finding::reading_in(drier)?;
        let at_press = finding::reading_in(press)?;
        Ok(Note {
            before_drier,
            at_press,
        })
    }

    // The bytes after a level's section, which comes first, or the first rule that it breaks.
    fn check_level<'a>(&self, level: u16, left: &'a [u8]) -> Result<&'a [u8], Refusal>
        requires { level ≤ self.now.shape.settings.depth }
        ensures { bytes_left result ≡ outcome (level_section_refusal left.now self.now.shape.settings level 0)
            (drop (end_of 0 (nodes_at self.now.shape.settings level) 2) left.now) }
    {
        let nodes = self.shape.level_nodes(level);
        check_section(left, nodes, 2)?;
        let bins = self.shape.settings.bins;
        let (section, below) = left.split_at(2 + 2 * nodes as usize);
        if !indices_ok(&section[2..], bins[level as usize]) {
            return Err(Refusal::Index);
        }
        Ok(below)
    }

    // The sections of all levels, and whether the file ends there.
    pub fn check_levels(&self) -> Result<(), Refusal>
        ensures { result ≡ outcome (level_sections_refusal self.now.bytes.now self.now.shape.settings self.now.shape.settings.depth
            (levels_place self.now.shape.settings)) tt }
    {
        let s = self.shape.settings;
        let mut left = words::rest(self.bytes, places::levels(s));
        for level in (0..=s.depth).rev() {
            left = self.check_level(level, left)?;
        }
        if !left.is_empty() {
            return Err(Refusal::BytesAfter);
        }
        Ok(())
    }
}
