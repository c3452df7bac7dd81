// Pictures as PGM files (document 02, P2): two readers and a writer.
#![tactic(auto)]

ghost use Rattle.std.specs.Prelude.{◌≡◌};
ghost use Rattle.refusals.specs.Definitions.Outcomes.{outcome};
ghost use Rattle.pgm.specs.Definitions.Calls.{picture_size, check_pgm, read_pgm, size_answer, write_pgm};

use pyramid::Dimensions;
use refusals::Refusal;

mod checking;
mod finding;
mod putting;

// Reads a file: its width and height in the answer, its pixels in the picture. Refused: 16, 1, 17, 18, 5.
pub fn read_pgm(file: &[u8], picture: &mut [u8]) -> Result<Dimensions, Refusal>
    ensures value { result ≡ outcome (read_pgm file.now picture.old).answer.refusal
        (picture_size (read_pgm file.now picture.old).answer) }
    ensures picture_after { picture.new ≡ (read_pgm file.now picture.old).picture }
{
    let found = checking::accepted(file)?;
    if picture.len() != found.pixels.len() {
        return Err(Refusal::PictureLength);
    }
    picture.copy_from_slice(found.pixels);
    Ok(found.size)
}

// The same of a file whose pixels nobody asks for: every number but 5.
pub fn check_pgm(file: &[u8]) -> Result<Dimensions, Refusal>
    ensures { result ≡ outcome (check_pgm file.now).refusal (picture_size (check_pgm file.now)) }
{
    Ok(checking::accepted(file)?.size)
}

// The size of a file of a picture of this size. Refused: 1.
pub fn pgm_size(size: Dimensions) -> Result<usize, Refusal>
    ensures { result ≡ outcome (size_answer size.columns size.rows).refusal (size_answer size.columns size.rows).size }
{
    pyramid::deepest_depth(size.columns, size.rows)?;
    let numbers = decimals::digit_count(size.columns as u32)
        + decimals::digit_count(size.rows as u32);
    Ok(9 + numbers + size.rows as usize * size.columns as usize)
}

// Writes a picture of this size and answers the file's size. Refused: 1, 5, 8.
pub fn write_pgm(size: Dimensions, picture: &[u8], file: &mut [u8]) -> Result<usize, Refusal>
    ensures value { result ≡ outcome (write_pgm size.columns size.rows picture.now file.old).answer.refusal
        (write_pgm size.columns size.rows picture.now file.old).answer.size }
    ensures file_after { file.new ≡ (write_pgm size.columns size.rows picture.now file.old).file }
{
    let bytes = pgm_size(size)?;
    if picture.len() != size.rows as usize * size.columns as usize {
        return Err(Refusal::PictureLength);
    }
    if file.len() < bytes {
        return Err(Refusal::FileLength);
    }
    putting::put_pgm(size, picture, &mut file[..bytes]);
    Ok(bytes)
}
