// The closed-loop coder and its bounds (document 02, P4) for programs in C or Rust.
ghost use Rattle.std.specs.Prelude.{◌≡◌};
ghost use Rattle.pyramid.specs.declared.Manner.TheVariants.{ClosedLoop};
ghost use Rattle.pyramid.specs.Definitions.Calls.{leaves, coding};
ghost use Rattle.pyramid.specs.Definitions.Answers.{bounds_answer};
ghost use Rattle.lepsarvu.specs.Definitions.Exports.{settings_of};

use crate::{give, settings_of};
use refusals::answer_number;

pub fn lepsarvu_closed_loop_coding(
    settings: &[u16; 13],
    picture: &[u8],
    levels: &mut [i16],
    work: &mut [i32],
) -> u16
    ensures value { result ≡
        (coding (settings_of settings.now) ClosedLoop picture.now
        levels.old work.old).answer }
    ensures levels_after { levels.new ≡
        (coding (settings_of settings.now) ClosedLoop picture.now
        levels.old work.old).levels }
    ensures work_after { work.new ≡
        (coding (settings_of settings.now) ClosedLoop picture.now
        levels.old work.old).work }
{
    let s = settings_of(settings);
    answer_number(pyramid::closed_loop_coding(s, picture, levels, work))
}

pub fn lepsarvu_closed_loop_bounds(settings: &[u16; 13], bounds: &mut [u16; 7]) -> u16
    ensures value { result ≡ (bounds_answer (settings_of settings.now) ClosedLoop).refusal }
    ensures bounds_after { bounds.new ≡
        leaves result (bounds_answer (settings_of settings.now) ClosedLoop).levels
        bounds.old }
{
    let s = settings_of(settings);
    give(pyramid::closed_loop_bounds(s), bounds)
}
