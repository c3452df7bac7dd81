// The listing of a bale file, to a writer.
use bale::{Bale, Note, Reading};
use pyramid::{Dimensions, Settings};
use std::io;
use std::io::Write;

// Text, and a number in decimal after it.
// Kept: a number's digits are those of `decimals`, as in every text that is read or written (document 02, P2), and not those of a format.
fn number<W: Write>(out: &mut W, word: &[u8], n: u32) -> io::Result<()> {
    let mut digits = [0; 10];
    let count = decimals::put_decimal(n, &mut digits, 0).unwrap_or(0);
    out.write_all(word)?;
    out.write_all(&digits[..count])
}

// A line of numbers, each after its text.
fn print_line<W: Write>(out: &mut W, numbers: &[(&[u8], u16)]) -> io::Result<()> {
    for (word, n) in numbers {
        number(out, word, u32::from(*n))?;
    }
    out.write_all(b"\n")
}

// The bits of a percentage, eight digits in one piece.
fn bits<W: Write>(out: &mut W, held: u32) -> io::Result<()> {
    let mut digits = [0; 8];
    write!(&mut &mut digits[..], "{held:08X}")?;
    out.write_all(&digits)
}

// A percentage by its bits.
fn print_reading<W: Write>(out: &mut W, reading: Reading) -> io::Result<()> {
    let held = bale::reading_code(reading).map_or(0, |code| code.number);
    match reading {
        Reading::NotFitted => out.write_all(b"none"),
        Reading::Percentage(_) => bits(out, held),
        Reading::Fault(_) => number(out, b"fault ", held),
    }
}

fn print_picture<W: Write>(out: &mut W, s: Settings) -> io::Result<()> {
    let numbers: [(&[u8], u16); 4] = [
        (b"picture ", s.columns),
        (b" ", s.rows),
        (b" depth ", s.depth),
        (b" kernel ", s.kernel),
    ];
    print_line(out, &numbers)
}

fn print_note<W: Write>(out: &mut W, note: Note) -> io::Result<()> {
    out.write_all(b"moisture ")?;
    print_reading(out, note.before_drier)?;
    out.write_all(b" ")?;
    print_reading(out, note.at_press)?;
    out.write_all(b"\n")
}

// A level: its columns, rows, bin and bound.
fn print_level<W: Write>(
    out: &mut W,
    level: u16,
    size: Dimensions,
    bin: u16,
    bound: u16,
) -> io::Result<()> {
    let numbers: [(&[u8], u16); 5] = [
        (b"level ", level),
        (b" ", size.columns),
        (b" ", size.rows),
        (b" bin ", bin),
        (b" within ", bound),
    ];
    print_line(out, &numbers)
}

// From level N down.
fn print_levels<W: Write>(out: &mut W, s: Settings, bounds: [u16; 7]) -> io::Result<()> {
    for level in (0..7u16).rev() {
        let slot = usize::from(level);
        if let Ok(size) = pyramid::level_size(s, level)
            && level <= s.depth
        {
            print_level(out, level, size, s.bins[slot], bounds[slot])?;
        }
    }
    Ok(())
}

fn print_bale<W: Write>(out: &mut W, b: Bale) -> io::Result<()> {
    let bounds = pyramid::level_bounds(b.settings).unwrap_or([0; 7]);
    print_picture(out, b.settings)?;
    print_note(out, b.note)?;
    print_levels(out, b.settings, bounds)
}

// The listing of a file that is accepted, or the refusal.
pub(crate) fn print<W: Write>(out: &mut W, file: &[u8]) -> io::Result<()> {
    match bale::check_file(file) {
        Ok(b) => print_bale(out, b),
        Err(refusal) => print_line(out, &[(b"refused ", u16::from(refusal))]),
    }
}
