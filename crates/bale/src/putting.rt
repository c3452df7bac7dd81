// The sections of a file, each in the part of the writer's buffer that is its own (document 01, "Bale file").
// Kept: each function asks that its part is as long as what it writes there. Of the bins and the levels the settings say how long that is,
// so that no type does. The readings' 12 bytes could be `&mut [u8; N]`, but `put_file` has slices of them, cut at their
// places: `try_into` and `split_first_chunk_mut` answer a Result and an Option, each with a case that never comes, for a clause of one line.
// As arrays that are answered and then copied they would be written otherwise than the two sections beside them, in no fewer lines.
// Kept: numbers are written at `2 * i`. After a loop over `chunks_exact_mut` no proof knows the bytes (tried in `put_indices`), and
// `as_chunks_mut` says nothing of what the slice ends as.
ghost use Rattle.std.specs.Prelude.{◌≡◌, ◌++◌, ◌∷◌, map, ◌+◌, ◌*◌, ◌<◌, T, length, drop};
ghost use Rattle.pyramid.specs.Definitions.Sizes.{total};
ghost use Rattle.bale.specs.Definitions.Words.{le32, words, index_word};
ghost use Rattle.bale.specs.Definitions.Readings.{note_ok};
ghost use Rattle.bale.specs.Definitions.Files.{shape_count, shape_section, bins_section, readings_section, level_section, level_sections, file_of, file_length};
ghost use Rattle.bale.specs.Definitions.Reader.{after_shape, levels_place};
ghost use Rattle.bale.specs.Definitions.Calls.{write_refusal};

use crate::{Code, Note, places, writing};
use pyramid::{Settings, Shape};

// Numbers, one after the other.
fn put_numbers(numbers: &[u16], bytes: &mut [u8])
    requires { length bytes.old ≡ 2 * length numbers.now }
    ensures { bytes.new ≡ words numbers.now }
{
    for (i, n) in numbers.iter().enumerate() {
        bytes[2 * i..2 * i + 2].copy_from_slice(&n.to_le_bytes());
    }
}

// The shape: its count and four numbers, and then black and white where they are not 0 and 255.
// Kept: two puts of arrays whose lengths are known. Of one array that is cut by the count, the compiler makes a call of `memcpy`.
fn put_shape(s: Settings, section: &mut [u8])
    requires { length section.old ≡ after_shape (shape_count s) }
    ensures { section.new ≡ shape_section s }
{
    let count = places::shape_count(s);
    let (start, greys) = section.split_at_mut(10);
    put_numbers(&[count, s.columns, s.rows, s.depth, s.kernel], start);
    if count == 6 {
        put_numbers(&[s.black, s.white], greys);
    }
}

// The bins, level N first, so that level 0 stands last.
fn put_bins(shape: Shape, section: &mut [u8])
    requires { length section.old ≡ 2 + 2 * (shape.settings.depth + 1) }
    ensures { section.new ≡ bins_section shape.settings }
{
    let bins = shape.settings.bins;
    let depth = shape.settings.depth;
    let (count, words) = section.split_at_mut(2);
    count.copy_from_slice(&(depth + 1).to_le_bytes());
    for level in 0..depth + 1 {
        let at = 2 * (depth - level) as usize;
        words[at..at + 2].copy_from_slice(&bins[level as usize].to_le_bytes());
    }
}

// A kind and a number.
fn code_bytes(code: Code) -> [u8; 5]
    ensures { result ≡ code.kind ∷ le32 code.number }
{
    let [a, b, c, d] = code.number.to_le_bytes();
    [code.kind, a, b, c, d]
}

fn put_readings(note: Note, section: &mut [u8])
    requires lawful { T (note_ok note) }
    requires long { length section.old ≡ 12 }
    ensures { section.new ≡ readings_section note }
{
    let (count, codes) = section.split_at_mut(2);
    let (before_drier, at_press) = codes.split_at_mut(5);
    count.copy_from_slice(&2u16.to_le_bytes());
    before_drier.copy_from_slice(&code_bytes(note.before_drier.code()));
    at_press.copy_from_slice(&code_bytes(note.at_press.code()));
}

// The numbers of indices.
// Kept apart from put_level: a loop over bytes that the same function split off is not vectorized, and the writer is then four times slower.
fn put_indices(indices: &[i16], bytes: &mut [u8])
    requires { length bytes.old ≡ 2 * length indices.now }
    ensures { bytes.new ≡ words (map index_word indices.now) }
{
    for (i, index) in indices.iter().enumerate() {
        bytes[2 * i..2 * i + 2].copy_from_slice(&index.to_le_bytes());
    }
}

// A level's section.
fn put_level(indices: &[i16], section: &mut [u8])
    requires { (length indices.now < 65536) × (length section.old ≡ 2 + 2 * length indices.now) }
    ensures { section.new ≡ level_section indices.now }
{
    let (count, numbers) = section.split_at_mut(2);
    count.copy_from_slice(&(indices.len() as u16).to_le_bytes());
    put_indices(indices, numbers);
}

// The sections of all levels, level N first.
// Kept: `at`, beside the levels that are cut, for the reason that stands at `ShapedFile::fill`.
fn put_levels(shape: Shape, levels: &[i16], sections: &mut [u8])
    requires levels_length { length levels.now ≡ total shape.settings }
    requires long { levels_place shape.settings + length sections.old ≡ file_length shape.settings }
    ensures { sections.new ≡ level_sections shape.settings shape.settings.depth levels.now }
{
    let mut at = 0;
    let mut left = levels;
    for level in (0..=shape.settings.depth).rev() {
        let (here, below) = left.split_at(shape.level_nodes(level) as usize);
        let end = at + 2 + 2 * here.len();
        put_level(here, &mut sections[at..end]);
        at = end;
        left = below;
    }
}

// A file that the writer accepts.
pub fn put_file(shape: Shape, note: Note, levels: &[i16], file: &mut [u8])
    requires { write_refusal shape.settings note levels.now (length file.old) ≡ 0 }
    ensures { file.new ≡
        file_of shape.settings note levels.now ++ drop (file_length shape.settings) file.old }
{
    let s = shape.settings;
    let (file, _) = file.split_at_mut(writing::file_length(shape));
    let (front, sections) = file.split_at_mut(places::levels(s));
    let (front, readings) = front.split_at_mut(places::readings(s));
    let (start, bins) = front.split_at_mut(places::bins(s));
    put_shape(s, start);
    put_bins(shape, bins);
    put_readings(note, readings);
    put_levels(shape, levels, sections);
}
