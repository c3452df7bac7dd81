// PGM pictures: the exports of `lepsarvu::pictures`.
// Kept: each function is that of `lepsarvu` again, with its clauses, since no crate can stand on a static library, and Rattle callers, test_exports among
// them, need these functions too (docs/DECISIONS.md). Numbers for refusals, and the settings and what is handed out one by one: the C interface.
ghost use Rattle.std.specs.Prelude.{◌≡◌};
ghost use Rattle.pyramid.specs.Definitions.Calls.{leaves};
ghost use Rattle.pgm.specs.Definitions.Calls.{check_pgm, read_pgm, size_answer, write_pgm};

#[unsafe(no_mangle)]
pub extern "C" fn lepsarvu_pgm_size(columns: u16, rows: u16, size: &mut usize) -> u16
    ensures value { result ≡ (size_answer columns rows).refusal }
    ensures size_after { size.new ≡ leaves result (size_answer columns rows).size size.old }
{
    lepsarvu::pictures::lepsarvu_pgm_size(columns, rows, size)
}

#[unsafe(no_mangle)]
pub extern "C" fn lepsarvu_write_pgm(
    columns: u16,
    rows: u16,
    picture: &[u8],
    file: &mut [u8],
    size: &mut usize,
) -> u16
    ensures value { result ≡
        (write_pgm columns rows picture.now file.old).answer.refusal }
    ensures file_after { file.new ≡ (write_pgm columns rows picture.now file.old).file }
    ensures size_after { size.new ≡
        leaves result (write_pgm columns rows picture.now file.old).answer.size
        size.old }
{
    lepsarvu::pictures::lepsarvu_write_pgm(columns, rows, picture, file, size)
}

#[unsafe(no_mangle)]
pub extern "C" fn lepsarvu_read_pgm(
    file: &[u8],
    picture: &mut [u8],
    columns: &mut u16,
    rows: &mut u16,
) -> u16
    ensures value { result ≡ (read_pgm file.now picture.old).answer.refusal }
    ensures picture_after { picture.new ≡ (read_pgm file.now picture.old).picture }
    ensures columns_after { columns.new ≡
        leaves result (read_pgm file.now picture.old).answer.columns
        columns.old }
    ensures rows_after { rows.new ≡
        leaves result (read_pgm file.now picture.old).answer.rows rows.old }
{
    lepsarvu::pictures::lepsarvu_read_pgm(file, picture, columns, rows)
}

#[unsafe(no_mangle)]
pub extern "C" fn lepsarvu_check_pgm(file: &[u8], columns: &mut u16, rows: &mut u16) -> u16
    ensures value { result ≡ (check_pgm file.now).refusal }
    ensures columns_after { columns.new ≡
        leaves result (check_pgm file.now).columns columns.old }
    ensures rows_after { rows.new ≡ leaves result (check_pgm file.now).rows rows.old }
{
    lepsarvu::pictures::lepsarvu_check_pgm(file, columns, rows)
}
