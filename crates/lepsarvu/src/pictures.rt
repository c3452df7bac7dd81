// PGM pictures for programs in C or Rust: numbers and slices alone. include/lepsarvu.h declares each function.
// Kept: numbers for refusals, and the size and what is handed out one by one, in the exported functions: the C interface.
ghost use Rattle.std.specs.Prelude.{◌≡◌};
ghost use Rattle.refusals.specs.Definitions.Outcomes.{answer_number};
ghost use Rattle.pyramid.specs.Definitions.Calls.{leaves};
ghost use Rattle.pgm.specs.Definitions.Calls.{check_pgm, read_pgm, size_answer, write_pgm};
ghost use Rattle.lepsarvu.specs.Inner.Given.{given};

use crate::give;
use pyramid::Dimensions;
use refusals::Refusal;

pub fn lepsarvu_pgm_size(columns: u16, rows: u16, size: &mut usize) -> u16
    ensures value { result ≡ (size_answer columns rows).refusal }
    ensures size_after { size.new ≡ leaves result (size_answer columns rows).size size.old }
{
    give(pgm::pgm_size(Dimensions { columns, rows }), size)
}

pub fn lepsarvu_write_pgm(
    columns: u16,
    rows: u16,
    picture: &[u8],
    file: &mut [u8],
    size: &mut usize,
) -> u16
    ensures value { result ≡
        (write_pgm columns rows picture.now file.old).answer.refusal }
    ensures file_after { file.new ≡ (write_pgm columns rows picture.now file.old).file }
    ensures size_after { size.new ≡
        leaves result (write_pgm columns rows picture.now file.old).answer.size
        size.old }
{
    give(
        pgm::write_pgm(Dimensions { columns, rows }, picture, file),
        size,
    )
}

// Width and height, into what was lent for them.
#[tactic(auto, unfolding(crate::specs::Inner::Given::given, refusals::specs::Definitions::Outcomes::answer_number))]
fn give_picture_size(answer: Result<Dimensions, Refusal>, columns: &mut u16, rows: &mut u16) -> u16
    ensures value { result ≡ answer_number answer }
    ensures columns_after { columns.new ≡ given answer (λ size. size.columns) columns.old }
    ensures rows_after { rows.new ≡ given answer (λ size. size.rows) rows.old }
{
    give(answer.map(|size| size.columns), columns);
    give(answer.map(|size| size.rows), rows)
}

pub fn lepsarvu_read_pgm(file: &[u8], picture: &mut [u8], columns: &mut u16, rows: &mut u16) -> u16
    ensures value { result ≡ (read_pgm file.now picture.old).answer.refusal }
    ensures picture_after { picture.new ≡ (read_pgm file.now picture.old).picture }
    ensures columns_after { columns.new ≡
        leaves result (read_pgm file.now picture.old).answer.columns
        columns.old }
    ensures rows_after { rows.new ≡
        leaves result (read_pgm file.now picture.old).answer.rows rows.old }
{
    give_picture_size(pgm::read_pgm(file, picture), columns, rows)
}

pub fn lepsarvu_check_pgm(file: &[u8], columns: &mut u16, rows: &mut u16) -> u16
    ensures value { result ≡ (check_pgm file.now).refusal }
    ensures columns_after { columns.new ≡
        leaves result (check_pgm file.now).columns columns.old }
    ensures rows_after { rows.new ≡ leaves result (check_pgm file.now).rows rows.old }
{
    give_picture_size(pgm::check_pgm(file), columns, rows)
}
