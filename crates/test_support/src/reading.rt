// Reads the cases of a program's data.
ghost use Rattle.std.specs.Prelude.{◌≡◌, ◌≢◌, true, false, [], ◌*◌, ◌/◌, ◌≤◌, ◌<◌, min, length, take, drop, IfOk, None, IfSome};
ghost use Rattle.std.specs.Io.KnownBytes.{Consumes, IsAtEnd};
ghost use Rattle.mathematics.specs.Definitions.Tables.{tabulate};
ghost use Rattle.mathematics.specs.Inner.Splices.{splice};
ghost use Rattle.test_support.specs.Definitions.Cases.{CasesRead, Finds, IsPart};
ghost use Rattle.test_support.specs.Definitions.Numbers.{signed16};

use crate::{decoding, fillers};
use std::io;
use std::io::Read;

// Reads until a buffer is full or the data ends, and answers how many bytes were read, to the buffer's start.
// Kept: how many reads it takes is not known before; and `lintlist`, a program of the product, has this loop of its own and no code of the tests.
pub fn read_full<R: Read>(source: &mut R, bytes: &mut [u8]) -> io::Result<usize>
    ensures bound { IfOk result (λ n. n ≤ length bytes.new) }
    ensures taken { IfOk result (λ n. Consumes (R.remaining source.old) (R.remaining source.new) (take n bytes.new)) }
    ensures end { IfOk result (λ n. n < length bytes.new → IsAtEnd (R.remaining source.new)) }
{
    let mut n = 0;
    while n < bytes.len() {
        let more = source.read(&mut bytes[n..])?;
        if more == 0 {
            return Ok(n);
        }
        n += more;
    }
    Ok(n)
}

// Reads n bytes to the start of a buffer; false where the data ends before, or the buffer, which then is not changed.
// Kept: n is read from the data, and may be more than the buffer holds; and a flag beside the buffer, since this says what the buffer holds
// where the bytes are not all there, which `read_part` cannot say of a buffer that its answer borrows.
pub fn read_exactly<R: Read>(source: &mut R, bytes: &mut [u8], n: usize) -> io::Result<bool>
    ensures length { length bytes.new ≡ length bytes.old }
    ensures room { IfOk result (λ is_read. is_read ≡ true → n ≤ length bytes.old) }
    ensures kept { length bytes.old < n → bytes.new ≡ bytes.old }
    ensures taken { IfOk result (λ is_read. is_read ≡ true → Consumes (R.remaining source.old) (R.remaining source.new) (take n bytes.new)) }
    ensures end { IfOk result (λ is_read. is_read ≡ false → n ≤ length bytes.old → IsAtEnd (R.remaining source.new)) }
{
    if bytes.len() < n {
        return Ok(false);
    }
    Ok(read_full(source, &mut bytes[..n])? == n)
}

// The same of a buffer for these bytes alone: they are the answer, or nothing where they are not all there.
pub fn read_part<'a, R: Read>(
    source: &mut R,
    bytes: &'a mut [u8],
    n: usize,
) -> io::Result<Option<&'a [u8]>>
    ensures taken { IfOk result (λ read. IfSome read (λ part. (length part.now ≡ n) × Consumes (R.remaining source.old) (R.remaining source.new) part.now)) }
    ensures end { IfOk result (λ read. read ≡ None → n ≤ length bytes.old → IsAtEnd (R.remaining source.new)) }
    ensures room { IfOk result (λ read. IfSome read (λ part. n ≤ length bytes.old)) }
{
    if read_exactly(source, bytes, n)? {
        Ok(Some(&bytes[..n]))
    } else {
        Ok(None)
    }
}

// What the start of the next case is read to be: whole; nothing, since no case is left; or cut.
#[derive(Clone, Copy, PartialEq, Eq)]
pub enum Start {
    Whole,
    NoCase,
    Cut,
}

// Fills a buffer with the start of the next case.
pub fn read_head<R: Read>(source: &mut R, head: &mut [u8]) -> io::Result<Start>
    ensures length { length head.new ≡ length head.old }
    ensures taken { IfOk result (λ start. start ≡ Start.Whole → Consumes (R.remaining source.old) (R.remaining source.new) head.new) }
    ensures end { IfOk result (λ start. start ≢ Start.Whole → IsAtEnd (R.remaining source.new)) }
    ensures none { IfOk result (λ start. start ≡ Start.NoCase → Consumes (R.remaining source.old) (R.remaining source.new) []) }
    ensures part { IfOk result (λ start. start ≡ Start.Cut → IsPart (R.remaining source.old) (R.remaining source.new) (length head.old)) }
{
    let got = read_full(source, head)?;
    Ok(if got == head.len() {
        Start::Whole
    } else if got == 0 {
        Start::NoCase
    } else {
        Start::Cut
    })
}

// Reads the cases of a program's data to their end: each by its start, for which a buffer is lent, and then by `check`, which reads the rest
// of it. What is found in a case is handed to `count`; where its start is cut that is `cut`. There are fewer than a million cases.
pub fn check_cases<R: Read, F: Copy, C: Fn(&mut R, &[u8]) -> io::Result<F>, T: FnMut(F)>(
    source: &mut R,
    start: &mut [u8],
    cut: F,
    check: C,
    mut count: T,
) -> io::Result<()>
    requires check { C.IsAlwaysCallable check }
    requires count { T.IsAlwaysCallable count }
    ensures length { length start.new ≡ length start.old }
    ensures read { IfOk result (λ _. CasesRead R.remaining (Finds (λ p b r q. C.post check p b r q)) (length start.old) cut
        (λ p found q. T.step p found tt q) source.old count source.new) }
{
    for _ in 0..1000000u32 {
        let found = match read_head(source, start)? {
            Start::Whole => check(source, start)?,
            Start::NoCase => break,
            Start::Cut => cut,
        };
        count(found);
    }
    Ok(())
}

// The bytes from a place on; none where there is no such place.
// Kept: it makes the sub-slice, also from a place past the end.
pub fn rest(bytes: &[u8], from: usize) -> &[u8]
    ensures { result.now ≡ drop from bytes.now }
{
    bytes.get(from..).unwrap_or(&[])
}

// Indices from bytes, as many as both hold.
pub fn load_indices(bytes: &[u8], levels: &mut [i16])
    ensures { levels.new ≡
        splice 0 (tabulate (min (length bytes.now / 2) (length levels.old))
        (λ k. signed16 bytes.now (2 * k))) levels.old }
{
    let n = (bytes.len() / 2).min(levels.len());
    fillers::fill(&mut levels[..n], |i| decoding::signed16_at(bytes, 2 * i));
}
