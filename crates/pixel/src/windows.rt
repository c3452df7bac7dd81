// The windows of a pixel, read from the top down (document 02, P6).
ghost use Rattle.std.specs.Prelude.{◌≡◌, ◌<◌};
ghost use Rattle.pyramid.specs.Definitions.Refusals.{settings_refusal};
ghost use Rattle.pyramid.specs.Inner.Lawful.{Lawful};

use crate::axes::Axis;
use crate::reading::Block;
use pyramid::Settings;

// A pixel of a picture of lawful settings.
#[derive(Clone, Copy)]
pub struct Asked {
    pub settings: Settings,
    pub column: u16,
    pub row: u16,
    ghost passed: { settings_refusal settings ≡ 0 },
    ghost lawful: { Lawful settings },
    ghost inside: { (column < settings.columns) × (row < settings.rows) },
}

// What is known of the windows above a level: the values of the one just above it and where they stand, and where the level starts in a buffer of all
// levels.
#[derive(Clone, Copy)]
pub struct Upper {
    pub block: Block,
    pub columns: Axis,
    pub rows: Axis,
    pub place: usize,
}
