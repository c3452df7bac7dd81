// Which rule the readers find broken first (document 02, P2), and what they accept.
ghost use Rattle.std.specs.Prelude.{◌≡◌};
ghost use Rattle.refusals.specs.Definitions.Outcomes.{outcome};
ghost use Rattle.pyramid.specs.Definitions.Settings.{size_ok};
ghost use Rattle.pyramid.specs.Definitions.Refusals.{unless};
ghost use Rattle.pgm.specs.Definitions.Calls.{check_refusal};
ghost use Rattle.pgm.specs.Inner.Found.{size_and_pixels, picture_in};

use crate::finding;
use pyramid::Dimensions;
use refusals::Refusal;

// A picture that a file holds.
#[derive(Clone, Copy)]
pub struct Picture<'a> {
    pub size: Dimensions,
    pub pixels: &'a [u8],
}

// The size of a picture. Refused: 1, which is the pyramid's.
// Kept: columns and rows one by one, since a header's numbers have 32 bits. They are `Dimensions`, which have 16, only where this function accepts them.
fn lawful_size(columns: u32, rows: u32) -> Result<Dimensions, Refusal>
    ensures { result ≡ outcome (unless (size_ok columns rows) 1) (record { columns = columns; rows = rows }) }
{
    let Ok(columns) = u16::try_from(columns) else {
        return Err(Refusal::Size);
    };
    let Ok(rows) = u16::try_from(rows) else {
        return Err(Refusal::Size);
    };
    pyramid::deepest_depth(columns, rows)?;
    Ok(Dimensions { columns, rows })
}

// The picture of a file that is lent alone. Refused: 16, 1, 17, 18.
pub fn accepted(file: &[u8]) -> Result<Picture, Refusal>
    ensures { size_and_pixels result ≡ outcome (check_refusal file.now) (picture_in file.now) }
{
    let Some(header) = finding::find_header(file) else {
        return Err(Refusal::Header);
    };
    let size = lawful_size(header.columns, header.rows)?;
    if header.greatest != 255 {
        return Err(Refusal::Greatest);
    }
    let pixels = &file[header.pixels..];
    if pixels.len() != size.rows as usize * size.columns as usize {
        return Err(Refusal::PixelCount);
    }
    Ok(Picture { size, pixels })
}
