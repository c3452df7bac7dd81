// Whether settings are lawful (document 01, "Settings"), and which rule is broken first (document 02, P1 and P5).
ghost use Rattle.std.specs.Prelude.{◌≡◌, true, ◌≤◌, ◌<◌};
ghost use Rattle.refusals.specs.Definitions.Numbers.{number};
ghost use Rattle.refusals.specs.Definitions.Outcomes.{outcome};
ghost use Rattle.pyramid.specs.Definitions.Settings.{side_ok, size_ok, kernel_ok, black_white_ok, slot_ok, bins_ok};
ghost use Rattle.pyramid.specs.Definitions.Depth.{deepest_depth};
ghost use Rattle.pyramid.specs.Definitions.Refusals.{shape_refusal, settings_refusal};

use crate::{LawfulSettings, Settings};
use refusals::Refusal;

#[tactic(auto, unfolding(crate::specs::Definitions::Settings::side_ok))]
fn side_ok(side: u16) -> bool
    ensures { result ≡ side_ok side }
{
    (2..=129).contains(&side)
}

#[tactic(auto, unfolding(crate::specs::Definitions::Settings::size_ok))]
pub fn size_ok(columns: u16, rows: u16) -> bool
    ensures { result ≡ size_ok columns rows }
{
    side_ok(columns) && side_ok(rows)
}

// The fewer of the trailing zero bits of columns - 1 and rows - 1, but at most 6.
pub fn deepest(columns: u16, rows: u16) -> u16
    requires { (1 ≤ columns) × (1 ≤ rows) }
    ensures { result ≡ deepest_depth columns rows }
{
    let c = (columns - 1).trailing_zeros();
    let r = (rows - 1).trailing_zeros();
    c.min(r).min(6) as u16
}

#[tactic(auto, unfolding(crate::specs::Definitions::Settings::kernel_ok))]
fn kernel_ok(kernel: u16) -> bool
    ensures { result ≡ kernel_ok kernel }
{
    (3..=6).contains(&kernel)
}

#[tactic(auto, unfolding(crate::specs::Definitions::Settings::black_white_ok))]
fn black_white_ok(black: u16, white: u16) -> bool
    ensures { result ≡ black_white_ok black white }
{
    black < white && white <= 255
}

#[tactic(auto, unfolding(crate::specs::Definitions::Settings::slot_ok))]
fn slot_ok(depth: usize, level: usize, bin: u16) -> bool
    ensures { result ≡ slot_ok depth level bin }
{
    if level <= depth {
        (1..=255).contains(&bin)
    } else {
        bin == 0
    }
}

pub fn bins_ok(s: Settings) -> bool
    ensures { result ≡ bins_ok s }
{
    for (level, &bin) in s.bins.iter().enumerate() {
        if !slot_ok(usize::from(s.depth), level, bin) {
            return false;
        }
    }
    true
}

// The first rule that a depth above the deepest breaks: it is above 6, or above the deepest of the columns alone, or else too deep for the
// rows.
fn depth_refusal(s: Settings) -> Refusal
    requires { (size_ok s.columns s.rows ≡ true) × (deepest_depth s.columns s.rows < s.depth) }
    ensures { number result ≡ shape_refusal s }
{
    let most = deepest(s.columns, s.columns);
    if 6 < s.depth {
        return Refusal::Depth;
    }
    if most < s.depth {
        return Refusal::Columns;
    }
    Refusal::Rows
}

// The first rule that the shape breaks. The bins are not looked at.
pub fn check_shape(s: Settings) -> Result<(), Refusal>
    ensures { result ≡ outcome (shape_refusal s) tt }
{
    if !size_ok(s.columns, s.rows) {
        return Err(Refusal::Size);
    }
    if deepest(s.columns, s.rows) < s.depth {
        return Err(depth_refusal(s));
    }
    if !kernel_ok(s.kernel) {
        return Err(Refusal::Kernel);
    }
    if black_white_ok(s.black, s.white) {
        Ok(())
    } else {
        Err(Refusal::BlackWhite)
    }
}

// The first rule that the settings break.
pub fn check_settings(s: Settings) -> Result<(), Refusal>
    ensures { result ≡ outcome (settings_refusal s) tt }
{
    LawfulSettings::new(s)?;
    Ok(())
}
