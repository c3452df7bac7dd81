// The cases of the file `pixels`: settings, the indices of all levels, and pixels that are asked for, each with its answer, the pixel and how many
// indices are read for it.
use crate::parts::{Asked, Finding, Part, compare_answers, cut};
use crate::whole;
use crate::whole::{MOST_NODES, MOST_PIXELS};
use pixel::RebuiltPixel;
use pyramid::Settings;
use refusals::Refusal;
use std::io;
use std::io::Read;
use test_support::decoding::{Form, byte_at, unsigned16_at};
use test_support::numbered::answer_of;
use test_support::reading::{check_cases, load_indices, read_part};
use test_support::reporting::{Tally, of_call};

// The levels of a case, and the whole picture where a rebuilding from them is accepted.
#[derive(Clone, Copy)]
struct Case<'a> {
    settings: Settings,
    levels: &'a [i16],
    picture: Option<&'a [u8]>,
}

// A pixel that is not the one of the whole picture, where there are both.
fn compare_whole(c: Case, asked: Asked, got: Result<RebuiltPixel, Refusal>) -> Option<Finding> {
    match (got, c.picture) {
        (Ok(got), Some(picture)) => whole::compare(asked, picture, got),
        _ => None,
    }
}

// A pixel in nine bytes: column, row, the number of its answer, the pixel and the number of indices read.
fn check_pixel(c: Case, bytes: &[u8]) -> Option<Finding> {
    let asked = Asked {
        settings: c.settings,
        column: unsigned16_at(bytes, 0),
        row: unsigned16_at(bytes, 2),
    };
    let value = RebuiltPixel {
        pixel: byte_at(bytes, 6),
        read: unsigned16_at(bytes, 7),
    };
    let number = unsigned16_at(bytes, 4);
    let Some(expected) = answer_of(number, value) else {
        return Some(Finding::of_part(Part::UnknownRefusal, usize::from(number)));
    };
    let got = asked.rebuild(c.levels);
    compare_answers(asked, got, expected).or(of_call(asked, compare_whole(c, asked, got)))
}

// Reads so many pixels and checks each; the first that differs is found.
fn check_pixels<R: Read>(data: &mut R, c: Case, count: u16) -> io::Result<Option<Finding>> {
    let mut found = None;
    for _ in 0..count {
        let mut bytes: [u8; 9] = [0; 9];
        let Some(bytes) = read_part(data, &mut bytes, 9)? else {
            return Ok(Some(cut()));
        };
        found = found.or(check_pixel(c, bytes));
    }
    Ok(found)
}

// Reads a case and checks it.
fn check_read<R: Read>(data: &mut R, settings: Settings) -> io::Result<Option<Finding>> {
    let nodes = match pyramid::total_nodes(settings) {
        Ok(nodes) if usize::from(nodes) <= MOST_NODES => usize::from(nodes),
        _ => return Ok(Some(Finding::of_part(Part::Settings, 0))),
    };
    let mut bytes: [u8; 2 * MOST_NODES + 2] = [0; 2 * MOST_NODES + 2];
    let Some(bytes) = read_part(data, &mut bytes, 2 * nodes + 2)? else {
        return Ok(Some(cut()));
    };
    let mut levels: [i16; MOST_NODES] = [0; MOST_NODES];
    load_indices(bytes, &mut levels[..nodes]);
    let levels = &levels[..nodes];
    let mut picture: [u8; MOST_PIXELS] = [0; MOST_PIXELS];
    let case = Case {
        settings,
        levels,
        picture: whole::rebuilt(settings, levels, &mut picture),
    };
    check_pixels(data, case, unsigned16_at(bytes, 2 * nodes))
}

// All cases to the end of the file.
// Kept: what it shares with the other programs is `check_cases`.
pub(crate) fn check_all<R: Read>(data: &mut R) -> io::Result<Tally<Finding>> {
    let mut tally = Tally::new();
    let mut head: [u8; 26] = [0; 26];
    check_cases(
        data,
        &mut head,
        Some(cut()),
        |data, head| check_read(data, Form::Greys.settings(head)),
        |found| tally.count(found),
    )?;
    Ok(tally)
}
