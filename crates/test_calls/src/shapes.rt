// The calls on a shape alone and on a level buffer alone.
use pyramid::{Dimensions, Settings};
use refusals::Refusal;
use std::array;
use test_support::fillers::lawful_index;
use test_support::reporting::Checks;

// A level, and its columns and rows at 9 by 5, N = 2: none above level 2.
const SIZES: [(u16, u16, u16); 4] = [(0, 9, 5), (2, 3, 2), (3, 0, 0), (65535, 0, 0)];

// Settings whose shape is 9 by 5, N = 2, or refused. A shape's bins are not looked at.
pub(crate) fn check(t: &mut Checks, s: Settings, answer: Result<(), Refusal>) {
    let levels: [i16; 66] = array::from_fn(lawful_index);
    let shape = match answer {
        Err(Refusal::Bin) => Ok(()),
        _ => answer,
    };
    t.check(pyramid::check_settings(s) == answer);
    t.check(pyramid::shape_nodes(s) == shape.map(|()| 66));
    for (level, columns, rows) in SIZES {
        let size = Dimensions { columns, rows };
        t.check(pyramid::level_size(s, level) == shape.map(|()| size));
    }
    t.check(pyramid::check_levels(s, &levels) == answer);
}
