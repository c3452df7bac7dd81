// The cases of the files `pyramid` and `closed`, and of those that have black and white too: a picture; the indices and averages of its
// coding; the values and the picture that are rebuilt from these indices; the bounds. Closed-loop there are no averages, and the values have
// 16 bits. Both calls are accepted.
ghost use Rattle.std.specs.Prelude.{◌≤◌};

use crate::parts::{Finding, Part, cut};
use crate::rebuilding::Case;
use crate::shape::{MOST_BYTES, Shape};
use crate::{coding, rebuilding};
use pyramid::Manner;
use std::io;
use std::io::Read;
use test_support::answers::compare;
use test_support::comparing::first_other;
use test_support::decoding;
use test_support::reading::{read_part, rest};
use test_support::sizes::compare_size;

// The number of nodes.
fn check_nodes(z: Shape) -> Option<Finding> {
    let got = pyramid::total_nodes(z.settings).map(|nodes| usize::from(nodes));
    compare_size(Part::NodesAnswer, Part::Nodes, got, Ok(z.nodes))
}

// The bound of a slot: the bytes hold level N first, and the slots above the depth hold 0.
fn bound(bytes: &[u8], levels: usize, slot: usize) -> u16
    requires { levels ≤ 7 }
{
    if slot < levels {
        return decoding::unsigned16_at(bytes, 2 * (levels - 1 - slot));
    }
    0
}

// The bounds of all seven slots.
fn compare_bounds(z: Shape, bytes: &[u8], slots: [u16; 7]) -> Option<Finding> {
    let slot = first_other(&slots, 0..7, |slot| bound(bytes, z.levels, slot));
    Finding::compared(Part::Bound, slot)
}

fn check_bounds(z: Shape, manner: Manner, bytes: &[u8]) -> Option<Finding> {
    let got = match manner {
        Manner::OpenLoop => pyramid::level_bounds(z.settings),
        Manner::ClosedLoop => pyramid::closed_loop_bounds(z.settings),
    };
    compare(Part::BoundsAnswer(manner), got, Ok(()), |slots, ()| {
        compare_bounds(z, bytes, slots)
    })
}

// Codes the picture of a case, and rebuilds it. Where the case has no averages, the values that coding leaves are those of the rebuilding.
fn check_calls(z: Shape, manner: Manner, case: &[u8]) -> Option<Finding> {
    let (wide, values) = match manner {
        Manner::OpenLoop => (true, z.pixels + 4 * z.nodes),
        Manner::ClosedLoop => (false, z.pixels + 2 * z.nodes),
    };
    let rebuilt = Case {
        shape: z,
        expected: Some(Ok(())),
        wide,
        bytes: rest(case, values),
    };
    coding::check(z, manner, case).or(rebuilding::check(rebuilt, rest(case, z.pixels)))
}

// Reads a case and checks it.
pub(crate) fn check_read<R: Read>(
    data: &mut R,
    z: Shape,
    manner: Manner,
) -> io::Result<Option<Finding>> {
    let mut case: [u8; MOST_BYTES] = [0; MOST_BYTES];
    let bounds = 2 * z.pixels
        + match manner {
            Manner::OpenLoop => 8 * z.nodes,
            Manner::ClosedLoop => 4 * z.nodes,
        };
    let Some(case) = read_part(data, &mut case, bounds + 2 * z.levels)? else {
        return Ok(Some(cut()));
    };
    let settings = check_nodes(z).or(check_bounds(z, manner, rest(case, bounds)));
    Ok(settings.or(check_calls(z, manner, case)))
}
