// The two readers over a case's file.
use crate::answers;
use crate::answers::Held;
use crate::parts::{Call, Finding, MOST_PLACES, Part};
use refusals::{Refusal, answer_number};
use test_support::comparing::indices;
use test_support::decoding::Form;
use test_support::fillers::{fill, first_changed, unlawful_index};
use test_support::reporting::of_call;
use test_support::rooms::Room;

// What a file is to be read to, and how many nodes its shape has, where that is accepted.
#[derive(Clone, Copy)]
pub(crate) struct Case<'f, 'h> {
    pub expected: Result<Held<'h>, Refusal>,
    pub file: &'f [u8],
    pub nodes: Option<u16>,
}

// The reader that is lent no level buffer.
// Kept: test_pgm's function of this name has the same two steps with another call, whose answer is compared otherwise.
pub(crate) fn check_checking(c: Case) -> Option<Finding> {
    let b = bale::check_file(c.file);
    of_call(Call::Checking, answers::compare(b, c.expected))
}

// That reader's answer, where the case says a number that no refusal has: it is another.
// Kept: test_pgm's function of this name asks another reader and names a call and a part of its own.
pub(crate) fn other_answer(file: &[u8]) -> Finding {
    let number = usize::from(answer_number(bale::check_file(file)));
    Finding::of_part(Part::Refusal, number).of_call(Call::Checking)
}

// What a reader leaves in the level buffer: an accepted file its indices, a refused one nothing.
fn compare_levels(c: Case, levels: &[i16]) -> Option<Finding> {
    match c.expected {
        Ok(held) => Finding::compared(Part::Index, indices(held.indices, levels, levels.len())),
        Err(_) => {
            let kept = first_changed(levels, 0, unlawful_index);
            Finding::compared(Part::KeptIndex, kept)
        }
    }
}

// The reader that is lent a filled level buffer.
// Kept: test_pgm's function of this name fills a buffer of bytes, calls another reader and compares otherwise: all that is the same is
// that there are three steps.
fn check_reading(c: Case, levels: &mut [i16]) -> Option<Finding> {
    fill(levels, unlawful_index);
    let b = bale::read_file(c.file, levels);
    answers::compare(b, c.expected).or(compare_levels(c, levels))
}

// The same with as many places as the file has nodes, or some where its shape is refused; or one more or fewer.
fn check_room(room: Room, c: Case) -> Option<Finding> {
    let mut levels: [i16; MOST_PLACES] = [0; MOST_PLACES];
    let needed = usize::from(c.nodes.unwrap_or(13));
    let places = room.places(needed, 1).min(MOST_PLACES);
    let found = check_reading(c, &mut levels[..places]);
    of_call(Call::Reading(room), found)
}

// With the places that the file needs, and with one place more and one fewer, which is refused where the shape is accepted. A case that is
// accepted and says no nodes is wrong: what is read with other places then is compared with settings of zeros.
// Kept: a table of the three rooms with what each is to answer, and a `find_map` over it, would be as long as the three calls.
pub(crate) fn check_lent(c: Case) -> Option<Finding> {
    let other = Case {
        expected: match c.nodes {
            Some(_) => Err(Refusal::LevelsLength),
            None => c.expected.and(Ok(answers::held_in(Form::Short, &[], &[]))),
        },
        ..c
    };
    check_room(Room::Longer, other)
        .or(check_room(Room::Shorter, other))
        .or(check_room(Room::Exact, c))
}
