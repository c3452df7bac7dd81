// What the header of a file says (document 02, P2).
// Kept: a file and a place in it, not the rest of the file. The definitions of a header (specs/Definitions/Header.antt) are of places in the whole file,
// also where its pixels start; of a rest each contract would have to say what it is the rest of, or those places be added up in each.
ghost use Rattle.std.specs.Prelude.{◌≡◌, ◌≤◌, length};
ghost use Rattle.pgm.specs.Definitions.Header.{is_space, digits_place};
ghost use Rattle.pgm.specs.Inner.Found.{passed, inside_after, field_at, header_in};

// A number of a header, and where it ends.
#[derive(Clone, Copy)]
struct Field {
    value: u32,
    end: usize,
}

// What a header says, and where the pixels start.
#[derive(Clone, Copy)]
pub struct Header {
    pub columns: u32,
    pub rows: u32,
    pub greatest: u32,
    pub pixels: usize,
}

#[tactic(auto, unfolding(crate::specs::Definitions::Header::is_space))]
fn is_space(b: u8) -> bool
    ensures { result ≡ is_space b }
{
    matches!(b, b' ' | b'\t' | b'\n' | b'\r')
}

// Whether a byte counts as white space before a number; inside a comment each does.
#[tactic(auto, unfolding(crate::specs::Inner::Found::passed))]
fn is_passed(inside: bool, b: u8) -> bool
    ensures { result ≡ passed inside b }
{
    inside || is_space(b) || b == b'#'
}

// Whether the byte after it is inside a comment.
#[tactic(auto, unfolding(crate::specs::Inner::Found::inside_after))]
fn is_inside_after(inside: bool, b: u8) -> bool
    ensures { result ≡ inside_after inside b }
{
    if inside { b != b'\n' } else { b == b'#' }
}

// Where the digits of a number start: after white space and comments.
fn digits_place(file: &[u8], at: usize) -> usize
    requires { at ≤ length file.now }
    ensures { result ≡ digits_place file.now at }
{
    let rest = &file[at..];
    let mut inside = false;
    for (i, &b) in rest.iter().enumerate() {
        if !is_passed(inside, b) {
            return at + i;
        }
        inside = is_inside_after(inside, b);
    }
    file.len()
}

// White space and a number of at most five digits, from a place on.
fn find_number(file: &[u8], at: usize) -> Option<Field>
    requires { at ≤ length file.now }
    ensures { result ≡ field_at file.now at }
{
    let start = digits_place(file, at);
    let number = decimals::number_at(file, start, 5)?;
    if start == at {
        return None;
    }
    Some(Field {
        value: number.value,
        end: start + number.digits,
    })
}

// The header: P5, three numbers with white space before each, and one white space byte.
pub fn find_header(file: &[u8]) -> Option<Header>
    ensures { result ≡ header_in file.now }
{
    if !file.starts_with(b"P5") {
        return None;
    }
    let columns = find_number(file, 2)?;
    let rows = find_number(file, columns.end)?;
    let greatest = find_number(file, rows.end)?;
    let last = *file.get(greatest.end)?;
    if !is_space(last) {
        return None;
    }
    Some(Header {
        columns: columns.value,
        rows: rows.value,
        greatest: greatest.value,
        pixels: greatest.end + 1,
    })
}
