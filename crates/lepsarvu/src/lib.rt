// The pyramid and the bale file for programs in C or Rust: numbers and slices alone. include/lepsarvu.h declares each function.
// Kept: numbers for refusals, and arrays for what C has as structs, in the exported functions: the C interface.
#![tactic(auto)]

ghost use Rattle.std.specs.Prelude.{◌≡◌, length};
ghost use Rattle.refusals.specs.Definitions.Outcomes.{outcome, answer_number};
ghost use Rattle.pyramid.specs.declared.Manner.TheVariants.{OpenLoop};
ghost use Rattle.pyramid.specs.Definitions.Calls.{leaves, coding, rebuilding};
ghost use Rattle.pyramid.specs.Definitions.Answers.{nodes_answer, bounds_answer, deepest_answer};
ghost use Rattle.bale.specs.Definitions.Readings.{code_of, code_in, decode};
ghost use Rattle.bale.specs.Definitions.Files.{file_length};
ghost use Rattle.bale.specs.Definitions.Calls.{size_answer, check_file, read_file};
ghost use Rattle.lepsarvu.specs.Definitions.Exports.{settings_of, settings_array, note_array, coded_refusal, coded_file, coded_size};
ghost use Rattle.lepsarvu.specs.Inner.Given.{given};

use bale::{Bale, Code, Note, Reading};
use pyramid::Settings;
use refusals::{Refusal, answer_number};

pub mod closed;
pub mod pictures;
pub mod pixels;

// The settings that thirteen numbers stand for.
pub(crate) fn settings_of(numbers: &[u16; 13]) -> Settings
    ensures { result ≡ settings_of numbers.now }
{
    let n = numbers;
    Settings {
        columns: n[0],
        rows: n[1],
        depth: n[2],
        kernel: n[3],
        black: n[4],
        white: n[5],
        bins: [n[6], n[7], n[8], n[9], n[10], n[11], n[12]],
    }
}

// The number of an answer; what is answered goes where room was lent for it.
#[tactic(auto, unfolding(crate::specs::Inner::Given::given, refusals::specs::Definitions::Outcomes::answer_number))]
pub(crate) fn give<T: Copy>(answer: Result<T, Refusal>, place: &mut T) -> u16
    ensures value { result ≡ answer_number answer }
    ensures place_after { place.new ≡ given answer (λ value. value) place.old }
{
    match answer {
        Ok(value) => {
            *place = value;
            0
        }
        Err(refusal) => u16::from(refusal),
    }
}

pub fn lepsarvu_coding(
    settings: &[u16; 13],
    picture: &[u8],
    levels: &mut [i16],
    work: &mut [i32],
) -> u16
    ensures value { result ≡
        (coding (settings_of settings.now) OpenLoop picture.now
        levels.old work.old).answer }
    ensures levels_after { levels.new ≡
        (coding (settings_of settings.now) OpenLoop picture.now
        levels.old work.old).levels }
    ensures work_after { work.new ≡
        (coding (settings_of settings.now) OpenLoop picture.now
        levels.old work.old).work }
{
    let s = settings_of(settings);
    answer_number(pyramid::coding(s, picture, levels, work))
}

pub fn lepsarvu_rebuilding(
    settings: &[u16; 13],
    levels: &[i16],
    picture: &mut [u8],
    work: &mut [i32],
) -> u16
    ensures value { result ≡
        (rebuilding (settings_of settings.now) levels.now
        picture.old work.old).answer }
    ensures picture_after { picture.new ≡
        (rebuilding (settings_of settings.now) levels.now
        picture.old work.old).picture }
    ensures work_after { work.new ≡
        (rebuilding (settings_of settings.now) levels.now
        picture.old work.old).work }
{
    let s = settings_of(settings);
    answer_number(pyramid::rebuilding(s, levels, picture, work))
}

pub fn lepsarvu_level_bounds(settings: &[u16; 13], bounds: &mut [u16; 7]) -> u16
    ensures value { result ≡ (bounds_answer (settings_of settings.now) OpenLoop).refusal }
    ensures bounds_after { bounds.new ≡
        leaves result (bounds_answer (settings_of settings.now) OpenLoop).levels
        bounds.old }
{
    let s = settings_of(settings);
    give(pyramid::level_bounds(s), bounds)
}

pub fn lepsarvu_deepest_depth(columns: u16, rows: u16, depth: &mut u16) -> u16
    ensures value { result ≡ (deepest_answer columns rows).refusal }
    ensures depth_after { depth.new ≡ leaves result (deepest_answer columns rows).depth depth.old }
{
    give(pyramid::deepest_depth(columns, rows), depth)
}

pub fn lepsarvu_total_nodes(settings: &[u16; 13], nodes: &mut u16) -> u16
    ensures value { result ≡ (nodes_answer (settings_of settings.now)).refusal }
    ensures nodes_after { nodes.new ≡
        leaves result (nodes_answer (settings_of settings.now)).nodes
        nodes.old }
{
    let s = settings_of(settings);
    give(pyramid::total_nodes(s), nodes)
}

pub fn lepsarvu_file_size(settings: &[u16; 13], size: &mut usize) -> u16
    ensures value { result ≡ (size_answer (settings_of settings.now)).refusal }
    ensures size_after { size.new ≡
        leaves result (size_answer (settings_of settings.now)).size
        size.old }
{
    let s = settings_of(settings);
    give(bale::file_size(s), size)
}

// The reading that a kind and a number stand for; no kind above 255 has one.
fn reading_of(kind: u32, number: u32) -> Result<Reading, Refusal>
    ensures { result ≡ outcome (decode kind number).refusal (decode kind number).reading }
{
    match u8::try_from(kind) {
        Ok(kind) => bale::coded_reading(kind, number),
        Err(_) => Err(Refusal::Reading),
    }
}

// Writes a file whose readings are handed in as a kind and a number each, and answers its size.
fn write_coded(
    s: Settings,
    note: [u32; 4],
    levels: &[i16],
    file: &mut [u8],
) -> Result<usize, Refusal>
    ensures value { result ≡ outcome (coded_refusal s note levels.now (length file.old)) (file_length s) }
    ensures file_after { file.new ≡ coded_file s note levels.now file.old }
{
    pyramid::check_settings(s)?;
    let before_drier = reading_of(note[0], note[1])?;
    let at_press = reading_of(note[2], note[3])?;
    let note = Note {
        before_drier,
        at_press,
    };
    bale::write_file(s, note, levels, file)
}

pub fn lepsarvu_write_file(
    settings: &[u16; 13],
    note: &[u32; 4],
    levels: &[i16],
    file: &mut [u8],
    size: &mut usize,
) -> u16
    ensures value { result ≡ coded_refusal (settings_of settings.now) note.now levels.now (length file.old) }
    ensures file_after { file.new ≡ coded_file (settings_of settings.now) note.now levels.now file.old }
    ensures size_after { size.new ≡
        coded_size (settings_of settings.now) note.now levels.now (length file.old) size.old }
{
    let s = settings_of(settings);
    give(write_coded(s, *note, levels, file), size)
}

// The kind and number of a reading; 0 and 0 of one that breaks its rule, which no reader answers.
fn code_of(reading: Reading) -> Code
    ensures { result ≡ code_in (code_of reading) }
{
    bale::reading_code(reading).unwrap_or(Code { kind: 0, number: 0 })
}

// The thirteen numbers of settings.
fn settings_array(s: Settings) -> [u16; 13]
    ensures { result ≡ settings_array s }
{
    let b = s.bins;
    [
        s.columns, s.rows, s.depth, s.kernel, s.black, s.white, b[0], b[1], b[2], b[3], b[4], b[5],
        b[6],
    ]
}

// The four numbers of a note.
fn note_array(note: Note) -> [u32; 4]
    ensures { result ≡ note_array note }
{
    let drier = code_of(note.before_drier);
    let press = code_of(note.at_press);
    [
        u32::from(drier.kind),
        drier.number,
        u32::from(press.kind),
        press.number,
    ]
}

// What a reader answers, into what it was lent.
#[tactic(auto, unfolding(crate::specs::Inner::Given::given, refusals::specs::Definitions::Outcomes::answer_number))]
fn give_bale(answer: Result<Bale, Refusal>, settings: &mut [u16; 13], note: &mut [u32; 4]) -> u16
    ensures value { result ≡ answer_number answer }
    ensures settings_after { settings.new ≡ given answer (λ b. settings_array b.settings) settings.old }
    ensures note_after { note.new ≡ given answer (λ b. note_array b.note) note.old }
{
    match answer {
        Ok(bale) => {
            *settings = settings_array(bale.settings);
            *note = note_array(bale.note);
            0
        }
        Err(refusal) => u16::from(refusal),
    }
}

pub fn lepsarvu_read_file(
    file: &[u8],
    levels: &mut [i16],
    settings: &mut [u16; 13],
    note: &mut [u32; 4],
) -> u16
    ensures value { result ≡ (read_file file.now levels.old).answer.refusal }
    ensures levels_after { levels.new ≡ (read_file file.now levels.old).levels }
    ensures settings_after { settings.new ≡
        leaves result (settings_array (read_file file.now levels.old).answer.settings)
        settings.old }
    ensures note_after { note.new ≡
        leaves result (note_array (read_file file.now levels.old).answer.note) note.old }
{
    let answer = bale::read_file(file, levels);
    give_bale(answer, settings, note)
}

pub fn lepsarvu_check_file(file: &[u8], settings: &mut [u16; 13], note: &mut [u32; 4]) -> u16
    ensures value { result ≡ (check_file file.now).refusal }
    ensures settings_after { settings.new ≡
        leaves result (settings_array (check_file file.now).settings) settings.old }
    ensures note_after { note.new ≡
        leaves result (note_array (check_file file.now).note) note.old }
{
    give_bale(bale::check_file(file), settings, note)
}
