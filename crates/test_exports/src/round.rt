// From a PGM file through a bale file to a PGM file: 3 columns and 2 rows, N = 0, k = 5, every grey, bin 1, at which every pixel is shown as it
// was.
use crate::lent::BEFORE;
use crate::pgm_writing::Picture;
use crate::{handed, pgm_writing};
use lepsarvu::pictures;
use test_support::reporting::Checks;

// Codes a picture and writes its bale file.
fn check_filed(t: &mut Checks, p: Picture, file: &mut [u8; 40]) {
    let mut levels: [i16; 6] = [0; 6];
    let mut work: [i32; 6] = [0; 6];
    let mut size = usize::from(BEFORE);
    let settings = [p.columns, p.rows, 0, 5, 0, 255, 1, 0, 0, 0, 0, 0, 0];
    let coded = lepsarvu::lepsarvu_coding(&settings, p.pixels, &mut levels, &mut work);
    let answer = lepsarvu::lepsarvu_write_file(&settings, &[0, 0, 2, 9], &levels, file, &mut size);
    t.check(coded == 0);
    t.check(answer == 0 && size == 40);
}

// Reads a bale file, rebuilds its picture and writes it as a PGM file.
fn check_shown(t: &mut Checks, file: &[u8; 40]) {
    let mut levels: [i16; 6] = [0; 6];
    let mut pixels: [u8; 6] = [0; 6];
    let mut work: [i32; 6] = [0; 6];
    let (read, got) = handed::by_reading(file, &mut levels);
    let rebuilt = lepsarvu::lepsarvu_rebuilding(&got.settings, &levels, &mut pixels, &mut work);
    t.check(read == 0);
    t.check(rebuilt == 0);
    let shown = Picture {
        columns: got.settings[0],
        rows: got.settings[1],
        pixels: &pixels,
    };
    pgm_writing::check(t, shown, 40, Ok(b"P5\n3 2\n255\n\xC8\x00\xFF\n#5"));
}

// The file is not in the single form; the last one is.
pub(crate) fn all() -> Checks {
    let mut t = Checks::new();
    let mut pixels: [u8; 6] = [0; 6];
    let mut columns = BEFORE;
    let mut rows = BEFORE;
    let mut file: [u8; 40] = [0; 40];
    let answer = pictures::lepsarvu_read_pgm(
        b"P5 # 9 9\n03\t002\r\n#\n0255\r\xC8\x00\xFF\n#5",
        &mut pixels,
        &mut columns,
        &mut rows,
    );
    t.check(answer == 0);
    let read = Picture {
        columns,
        rows,
        pixels: &pixels,
    };
    check_filed(&mut t, read, &mut file);
    check_shown(&mut t, &file);
    t
}
