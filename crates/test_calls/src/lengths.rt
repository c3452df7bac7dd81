// Buffers of other lengths than the settings ask for. Only the work buffer may be longer.
use crate::base::BASE;
use crate::buffers::{Node, Put};
use crate::calling;
use crate::calling::Case;
use refusals::Refusal;
use test_support::reporting::Checks;
use test_support::rooms::Lengths;

// At bin 3 index 5 is 15, which with 200 is 215.
const PUT: Put = Put {
    place: 21,
    index: 5,
    node: Some(Node {
        value: 215,
        pixel: 215,
    }),
};

// The lengths, and the answer to them.
const ANSWERS: [(usize, usize, usize, Result<(), Refusal>); 11] = [
    (45, 66, 66, Ok(())),
    (44, 66, 66, Err(Refusal::PictureLength)),
    (46, 66, 66, Err(Refusal::PictureLength)),
    (0, 66, 66, Err(Refusal::PictureLength)),
    (45, 65, 66, Err(Refusal::LevelsLength)),
    (45, 67, 67, Err(Refusal::LevelsLength)),
    (45, 0, 66, Err(Refusal::LevelsLength)),
    (45, 66, 65, Err(Refusal::WorkLength)),
    (45, 66, 0, Err(Refusal::WorkLength)),
    (45, 66, 67, Ok(())),
    (45, 66, 72, Ok(())),
];

// Both calls with buffers of each length.
pub(crate) fn all() -> Checks {
    let mut t = Checks::new();
    for &(picture, levels, work, answer) in &ANSWERS {
        let coding = Case {
            settings: BASE,
            lengths: Lengths {
                picture,
                levels,
                work,
            },
            put: None,
            dot: None,
            answer,
        };
        let rebuilding = Case {
            put: Some(PUT),
            ..coding
        };
        t.check(calling::coding_gives(coding));
        t.check(calling::rebuilding_gives(rebuilding));
    }
    t
}
