// Numbers in decimal (document 02, P2), for every text that is read or written.
#![tactic(auto)]

ghost use Rattle.std.specs.Prelude.{◌≡◌, cond, ◌+◌, ◌-◌, ◌≤◌, length};
ghost use Rattle.mathematics.specs.Inner.Splices.{splice};
ghost use Rattle.decimals.specs.Definitions.Text.{decimal, text_at, has_room, number_at, number_found};

// A number that a text begins with: its value, and how many digits it has.
#[derive(Clone, Copy)]
pub struct Number {
    pub value: u32,
    pub digits: usize,
}

// How many digits a number has.
// Kept: counted by hundreds. std's `checked_ilog10` was tried, and proves with less; but `write_pgm`, which asks six times, then takes 1.55 times as long
// as plain C at 17 by 17 (bench/run), and misses 1.5. So it takes 1.44.
#[tactic(auto, using(crate::proofs::Counting::count_one, crate::proofs::Counting::count_two, crate::proofs::Counting::count_hundreds, crate::proofs::Counting::count_most, crate::proofs::Counting::hundreds_less))]
pub fn digit_count(n: u32) -> usize
    ensures { result ≡ length (decimal n) }
{
    match n {
        0..=9 => 1,
        10..=99 => 2,
        _ => digit_count(n / 100) + 2,
    }
}

// A number's digits in a buffer, the last one first, before a place.
// Kept: by hand. Of a format std says the bytes only where they go to a `String`, which needs a heap. `write_digits` of the kit's itoa needs none and
// says as much, of std's `decimal`: it would be the only crate in the product that is neither std nor its own, and need a lemma that both `decimal` are
// one, for these four lines.
fn put_digits(n: u32, buffer: &mut [u8], end: usize)
    requires { (length (decimal n) ≤ end) × (end ≤ length buffer.old) }
    ensures { buffer.new ≡
        splice (end - length (decimal n)) (decimal n) buffer.old }
{
    buffer[end - 1] = b'0' + (n % 10) as u8;
    if 10 <= n {
        put_digits(n / 10, buffer, end - 1);
    }
}

// Kept: a buffer and a place in it, though the product's callers ask for place 0. This is a public function, whose promise of every other place,
// past the end too, has to stand, and is tested (test_pgm/src/numbers.rt).
// Writes a number in a buffer from a place on, and answers how many digits it has; `None` where it has no room there.
pub fn put_decimal(n: u32, buffer: &mut [u8], at: usize) -> Option<usize>
    ensures value { result ≡ cond (has_room at (decimal n) buffer.old) (Some (length (decimal n))) None }
    ensures buffer_after { buffer.new ≡
        cond (has_room at (decimal n) buffer.old) (text_at at (decimal n) buffer.old)
        buffer.old }
{
    let count = digit_count(n);
    if buffer.len() < count || buffer.len() - count < at {
        return None;
    }
    put_digits(n, buffer, at + count);
    Some(count)
}

// A number of so many digits; `None` of none.
#[tactic(auto, unfolding(crate::specs::Definitions::Text::number_found))]
fn number_of(value: u32, digits: usize) -> Option<Number>
    ensures { result ≡ number_found (record { value = value; digits = digits }) }
{
    if digits == 0 {
        None
    } else {
        Some(Number { value, digits })
    }
}

// The number of at most so many digits, and never more than nine, that begins at a place; `None` where no digit stands there.
// Kept: a text and a place in it, though the product's caller asks inside the text alone. This is a public function, whose promise of a place
// past the end has to stand, and is tested (test_pgm/src/texts.rt).
// Kept: the value by a loop. `from_utf8` and `parse::<u32>` were tried, and timed in this function alone: 16 ns for 12. A header has three numbers: that
// is 12 ns more in the 42 of `check_pgm` at 17 by 17, which takes 1.5 times as long as plain C as it is (bench/run).
pub fn number_at(text: &[u8], at: usize, most: usize) -> Option<Number>
    ensures { result ≡ number_found (number_at text.now at most) }
{
    let rest = text.get(at..)?;
    let front = rest.get(..most.min(9)).unwrap_or(rest);
    let mut value = 0;
    for (i, byte) in front.iter().enumerate() {
        if !byte.is_ascii_digit() {
            return number_of(value, i);
        }
        value = 10 * value + (byte - b'0') as u32;
    }
    number_of(value, front.len())
}
