// What a call is to answer, a value or a refusal, and how its answer differs.
use crate::parts::{Finding, Part};
use bale::{Bale, Code, Reading};
use pyramid::Settings;
use refusals::Refusal;
use test_support::comparing::first_difference;
use test_support::decoding::Form;
use test_support::reading::rest;
use test_support::{answers, decoding};

// What a file holds: settings, and the form in which a case says them; the kinds and the numbers of two readings, and indices.
#[derive(Clone, Copy)]
pub(crate) struct Held<'a> {
    pub form: Form,
    pub settings: Settings,
    pub before_drier: Code,
    pub at_press: Code,
    pub indices: &'a [u8],
}

// A reading in five bytes: its kind and its number.
fn code_in(bytes: &[u8]) -> Code {
    Code {
        kind: decoding::byte_at(bytes, 0),
        number: decoding::unsigned32_at(bytes, 1),
    }
}

// The settings and the readings that a case says, and its indices.
pub(crate) fn held_in<'a>(form: Form, said: &[u8], indices: &'a [u8]) -> Held<'a> {
    let codes = rest(said, form.length());
    Held {
        form,
        settings: form.settings(said),
        before_drier: code_in(codes),
        at_press: code_in(rest(codes, 5)),
        indices,
    }
}

// In the order of the form: C, R, N, k, black, white and then the bins; where the form has no black and white, these are last.
fn numbers(form: Form, s: Settings) -> [u16; 13] {
    let [c, r, n, k] = [s.columns, s.rows, s.depth, s.kernel];
    let [b0, b1, b2, b3, b4, b5, b6] = s.bins;
    let (black, white) = (s.black, s.white);
    match form {
        Form::Short => [c, r, n, k, b0, b1, b2, b3, b4, b5, b6, black, white],
        Form::Greys => [c, r, n, k, black, white, b0, b1, b2, b3, b4, b5, b6],
    }
}

// A float that is at most 100 is no NaN, and has bits.
fn has_bits(x: f32, bits: u32) -> bool {
    x <= 100.0 && f32::to_bits(x) == bits
}

// By what the reading holds, and not by what `reading_code` says of it.
pub(crate) fn is_held(reading: Reading, code: Code) -> bool {
    match reading {
        Reading::NotFitted => code.kind == 0 && code.number == 0,
        Reading::Percentage(x) => code.kind == 1 && has_bits(x, code.number),
        Reading::Fault(n) => code.kind == 2 && code.number == n,
    }
}

// Reading 0 before the drier, reading 1 at the press.
fn compare_bale(b: Bale, e: Held) -> Option<Finding> {
    let setting = first_difference(&numbers(e.form, b.settings), &numbers(e.form, e.settings));
    let note = b.note;
    let held = [
        is_held(note.before_drier, e.before_drier),
        is_held(note.at_press, e.at_press),
    ];
    let reading = held.iter().position(|is_held| !*is_held);
    Finding::compared(Part::Setting, setting).or(Finding::compared(Part::ReadingHeld, reading))
}

// The first difference of a reader's answer: the refusal, a setting, a reading.
// Kept: what it shares with test_pgm is `answers::compare`; the values, and how they are compared, differ.
pub(crate) fn compare(got: Result<Bale, Refusal>, e: Result<Held, Refusal>) -> Option<Finding> {
    answers::compare(Part::Refusal, got, e, compare_bale)
}
