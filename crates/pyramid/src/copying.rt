// Rows and levels from one lent buffer to another: pixels, indices, values and the final picture.
ghost use Rattle.std.specs.Prelude.{◌≡◌, map, ◌+◌, ◌≤◌, pos, ◌+ℤ◌, ◌-ℤ◌, ◌*ℤ◌, length, get_or};
ghost use Rattle.mathematics.specs.Definitions.Tables.{tabulate};
ghost use Rattle.quantizer.specs.Definitions.Bins.{bin_index};
ghost use Rattle.pyramid.specs.Definitions.Rebuilding.{clamp};
ghost use Rattle.pyramid.specs.Inner.Rows.{Small, kept, IndicesWithin, ValuesWithin};
ghost use Rattle.pyramid.specs.Definitions.Refusals.{limit};

use crate::{LawfulSettings, Manner};

// The pixels as numbers.
pub fn load(picture: &[u8], values: &mut [i32])
    requires { length picture.now ≡ length values.old }
    ensures { values.new ≡ map pos picture.now }
{
    for (i, &pixel) in picture.iter().enumerate() {
        values[i] = i32::from(pixel);
    }
}

impl LawfulSettings {
    // A value as it is shown: clamped to black and white.
    // Kept: clamped to bytes first, so that the compiler puts sixteen values of a picture into bytes at a time, and clamps these.
    pub fn clamp(self, value: i32) -> u8
        ensures { result ≡ clamp self value }
    {
        let black = self.settings.black as u8;
        let white = self.settings.white as u8;
        (value.clamp(0, 255) as u8).max(black).min(white)
    }
}

// The final picture: every value clamped to black and white.
pub fn clamp_all(lawful: LawfulSettings, src: &[i32], picture: &mut [u8])
    requires { length src.now ≡ length picture.old }
    ensures { picture.new ≡ map (clamp lawful) src.now }
{
    for (i, &x) in src.iter().enumerate() {
        picture[i] = lawful.clamp(x);
    }
}

// The differences of a row: its averages less what is predicted for them, in the place of that.
fn subtract_row(averages: &[i32], predicted: &mut [i32])
    requires long { length averages.now ≡ length predicted.old }
    requires small { Small 8388608 averages.now }
    requires small_2 { Small 8388608 predicted.old }
    ensures { predicted.new ≡
        tabulate (length predicted.old) (λ i. get_or averages.now i (pos 0) -ℤ get_or predicted.old i (pos 0)) }
{
    for (i, x) in predicted.iter_mut().enumerate() {
        *x = averages[i] - *x;
    }
}

// What was predicted for a row, in the place of its averages: these less their differences.
fn recover_row(averages: &mut [i32], differences: &[i32])
    requires long { length averages.old ≡ length differences.now }
    requires small { Small 8388608 averages.old }
    requires small_2 { Small 16777216 differences.now }
    ensures { averages.new ≡
        tabulate (length averages.old) (λ i. get_or averages.old i (pos 0) -ℤ get_or differences.now i (pos 0)) }
{
    for (i, x) in averages.iter_mut().enumerate() {
        *x -= differences[i];
    }
}

// Numbers that 16 bits hold, as indices.
fn store_row(numbers: &[i32], indices: &mut [i16])
    requires long { length numbers.now ≡ length indices.old }
    requires small { Small limit numbers.now }
    ensures { indices.new ≡ numbers.now }
{
    for (i, index) in indices.iter_mut().enumerate() {
        *index = numbers[i].clamp(-32768, 32767) as i16;
    }
}

// The indices of a row of differences, which are not kept.
fn index_row(differences: &mut [i32], bin: u16, indices: &mut [i16])
    requires long { length differences.old ≡ length indices.old }
    requires small { Small limit (map (λ x. bin_index x bin) differences.old) }
    ensures { indices.new ≡ map (λ x. bin_index x bin) differences.old }
{
    quantizer::index_row(differences, bin);
    store_row(differences, indices);
}

// The indices of a row: of its averages less what is predicted for them. In the place of the averages is left what the manner keeps: these, or
// the rebuilt values. What is left in the place of the prediction does not matter.
pub fn code_row(
    manner: Manner,
    values: &mut [i32],
    predicted: &mut [i32],
    bin: u16,
    indices: &mut [i16],
)
    requires lengths { (length predicted.old ≡ length values.old) × (length indices.old ≡ length values.old) }
    requires small { Small 8388608 values.old }
    requires small_2 { Small 8388608 predicted.old }
    requires indices_within { IndicesWithin values.old predicted.old bin }
    requires short { bin ≤ 255 }
    ensures made { indices.new ≡
        tabulate (length values.old)
        (λ i. bin_index (get_or values.old i (pos 0) -ℤ get_or predicted.old i (pos 0)) bin) }
    ensures kept { values.new ≡
        tabulate (length values.old) (λ i. kept manner (get_or values.old i (pos 0)) (get_or predicted.old i (pos 0)) bin) }
{
    subtract_row(values, predicted);
    match manner {
        Manner::OpenLoop => index_row(predicted, bin, indices),
        Manner::ClosedLoop => {
            recover_row(values, predicted);
            index_row(predicted, bin, indices);
            value_row(indices, bin, values);
        }
    }
}

// The rebuilt values of a row: its indices' values plus what is predicted for them, in the place of that.
pub fn value_row(indices: &[i16], bin: u16, predicted: &mut [i32])
    requires long { length indices.now ≡ length predicted.old }
    requires small { Small 8388608 predicted.old }
    requires values_within { ValuesWithin indices.now bin }
    requires short { bin ≤ 255 }
    ensures { predicted.new ≡
        tabulate (length predicted.old)
        (λ i. get_or indices.now i (pos 0) *ℤ pos bin +ℤ get_or predicted.old i (pos 0)) }
{
    // Of 16 bits, as the indices and their values are: the compiler then multiplies eight at a time.
    let n = bin as i16;
    for (i, value) in predicted.iter_mut().enumerate() {
        *value = i32::from(indices[i] * n) + *value;
    }
}
