// The bound of each level (document 01, "Pyramid steps"; document 02, P4).
ghost use Rattle.std.specs.Prelude.{◌≡◌, ◌≤◌};
ghost use Rattle.pyramid.specs.Definitions.Bound.{magnified};
ghost use Rattle.pyramid.specs.Definitions.Answers.{bound_slots};
ghost use Rattle.pyramid.specs.Inner.Bounds.{carried};

use crate::{LawfulSettings, Manner};

// A distance times the kernel's multiplier, rounded up: 1.96 for kernel 6, 1 for the others.
fn magnify(kernel: u16, distance: u16) -> u16
    requires { distance ≤ 30000 }
    ensures { result ≡ magnified kernel distance }
{
    if kernel == 6 {
        return (196 * u32::from(distance)).div_ceil(100) as u16;
    }
    distance
}

// What the bound of a level takes from that of the level above it.
fn carried(manner: Manner, kernel: u16, distance: u16) -> u16
    requires { distance ≤ 30000 }
    ensures { result ≡ carried manner kernel distance }
{
    match manner {
        Manner::OpenLoop => magnify(kernel, distance),
        Manner::ClosedLoop => 0,
    }
}

// The bound of each level in its slot.
pub fn bound_slots(lawful: LawfulSettings, manner: Manner) -> [u16; 7]
    ensures { result ≡ bound_slots lawful manner }
{
    // Of the settings only the bins are copied, which takes less stack.
    let bins = lawful.settings.bins;
    let top = usize::from(lawful.settings.depth);
    let mut out: [u16; 7] = [0; 7];
    let mut bound = bins[top] / 2;
    out[top] = bound;
    for l in (0..top).rev() {
        bound = carried(manner, lawful.settings.kernel, bound) + bins[l] / 2;
        out[l] = bound;
    }
    out
}
