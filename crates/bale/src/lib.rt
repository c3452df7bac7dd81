// The bale file of document 01: its writer, its reader, and the reader that is lent no level buffer.
#![tactic(auto)]

ghost use Rattle.std.specs.Prelude.{◌≡◌};
ghost use Rattle.refusals.specs.Definitions.Outcomes.{outcome};
ghost use Rattle.bale.specs.Definitions.Readings.{code_in, code_of, decode};
ghost use Rattle.bale.specs.Definitions.Calls.{bale_in, size_answer, write_file, check_file, read_file};

use pyramid::{LawfulSettings, Settings};
use refusals::Refusal;

mod checking;
mod filling;
mod finding;
mod places;
mod probes;
mod putting;
mod shaped;
mod words;
mod writing;

use shaped::ShapedFile;

// A probe reading: not fitted, a percentage, or a fault code.
#[derive(Clone, Copy)]
pub enum Reading {
    NotFitted,
    Percentage(f32),
    Fault(u32),
}

// The bale's two readings.
#[derive(Clone, Copy)]
pub struct Note {
    pub before_drier: Reading,
    pub at_press: Reading,
}

// The kind byte and the number that stand for a reading in a file.
// Kept: the kind is the byte that the file holds, any of 256; `Reading` is what it stands for.
#[derive(Clone, Copy, PartialEq, Eq)]
pub struct Code {
    pub kind: u8,
    pub number: u32,
}

// What a file says of its bale.
#[derive(Clone, Copy)]
pub struct Bale {
    pub settings: Settings,
    pub note: Note,
}

// The kind byte and the number that stand for a reading in a file. Refused: 4.
pub fn reading_code(reading: Reading) -> Result<Code, Refusal>
    ensures { result ≡ outcome (code_of reading).refusal (code_in (code_of reading)) }
{
    Code::try_from(reading)
}

// The reading that a kind byte and a number stand for in a file. Refused: 4.
pub fn coded_reading(kind: u8, number: u32) -> Result<Reading, Refusal>
    ensures { result ≡ outcome (decode kind number).refusal (decode kind number).reading }
{
    Reading::try_from(Code { kind, number })
}

// The size of a file of settings. Refused: 1, 13, 14, 15, 2, 19, 3.
pub fn file_size(s: Settings) -> Result<usize, Refusal>
    ensures { result ≡ outcome (size_answer s).refusal (size_answer s).size }
{
    let lawful = LawfulSettings::new(s)?;
    Ok(writing::file_length(lawful.shape()))
}

// Writes a file and answers its size. Refused: 1, 13, 14, 15, 2, 19, 3, 4, 6, 8, 11.
pub fn write_file(
    s: Settings,
    note: Note,
    levels: &[i16],
    file: &mut [u8],
) -> Result<usize, Refusal>
    ensures value { result ≡ outcome (write_file s note levels.now file.old).answer.refusal
        (write_file s note levels.now file.old).answer.size }
    ensures file_after { file.new ≡ (write_file s note levels.now file.old).file }
{
    let shape = writing::check(s, note, levels, file.len())?;
    putting::put_file(shape, note, levels, file);
    Ok(writing::file_length(shape))
}

// Reads a file: its settings and readings in the answer, its indices in the level buffer.
// Refused in file order: 9, 10, 1, 13, 14, 15, 2, 19, 6, 3, 4, 11, 12.
pub fn read_file(file: &[u8], levels: &mut [i16]) -> Result<Bale, Refusal>
    ensures value { result ≡ outcome (read_file file.now levels.old).answer.refusal
        (bale_in (read_file file.now levels.old).answer) }
    ensures levels_after { levels.new ≡ (read_file file.now levels.old).levels }
{
    let shaped = ShapedFile::new(file)?;
    if levels.len() != shaped.shape.nodes() as usize {
        return Err(Refusal::LevelsLength);
    }
    let bale = shaped.bale()?;
    shaped.fill(levels);
    Ok(bale)
}

// The same of a file whose indices nobody asks for: every number but 6.
pub fn check_file(file: &[u8]) -> Result<Bale, Refusal>
    ensures { result ≡ outcome (check_file file.now).refusal (bale_in (check_file file.now)) }
{
    let shaped = ShapedFile::new(file)?;
    shaped.bale()
}
