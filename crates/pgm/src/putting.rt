// A file in its single form, each piece in the part of the buffer that is its own (document 02, P2).
ghost use Rattle.std.specs.Prelude.{◌≡◌, ◌+◌, length};
ghost use Rattle.decimals.specs.Definitions.Text.{decimal};
ghost use Rattle.pgm.specs.Definitions.Files.{number_then, header_of, pgm_of};

use pyramid::Dimensions;

// A number and the white space byte after it.
fn put_number(n: u16, space: u8, part: &mut [u8])
    requires { length part.old ≡ length (decimal n) + 1 }
    ensures { part.new ≡ number_then n space }
{
    let digits = decimals::put_decimal(n as u32, part, 0).unwrap();
    part[digits] = space;
}

#[tactic(auto, using(crate::proofs::Writings::header_pieces))]
fn put_header(size: Dimensions, header: &mut [u8])
    requires { length header.old ≡ length (header_of size.columns size.rows) }
    ensures { header.new ≡ header_of size.columns size.rows }
{
    let (name, rest) = header.split_at_mut(3);
    let (width, rest) = rest.split_at_mut(decimals::digit_count(size.columns as u32) + 1);
    let (height, greatest) = rest.split_at_mut(decimals::digit_count(size.rows as u32) + 1);
    name.copy_from_slice(b"P5\n");
    put_number(size.columns, b' ', width);
    put_number(size.rows, b'\n', height);
    greatest.copy_from_slice(b"255\n");
}

// The whole file.
pub fn put_pgm(size: Dimensions, picture: &[u8], file: &mut [u8])
    requires { length file.old ≡ length (header_of size.columns size.rows) + length picture.now }
    ensures { file.new ≡ pgm_of size.columns size.rows picture.now }
{
    let at = file.len() - picture.len();
    let (header, pixels) = file.split_at_mut(at);
    put_header(size, header);
    pixels.copy_from_slice(picture);
}
