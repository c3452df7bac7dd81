// Settings with the sizes that follow from them.
ghost use Rattle.std.specs.Prelude.{◌≤◌};

use pyramid::Settings;

// The largest case has 212,190 bytes, 22,359 nodes and 16,641 pixels.
pub(crate) const MOST_BYTES: usize = 212190;

pub(crate) const MOST_NODES: usize = 22359;

pub(crate) const MOST_PIXELS: usize = 16641;

// How many places the work buffer has after those of the nodes.
pub(crate) const AFTER: usize = 24;

pub(crate) const MOST_PLACES: usize = MOST_NODES + AFTER;

// What is in a case: its settings, and how many pixels, nodes and levels they make.
#[derive(Clone, Copy)]
pub(crate) struct Shape {
    pub settings: Settings,
    pub pixels: usize,
    pub nodes: usize,
    pub levels: usize,
    ghost few_pixels: { pixels ≤ 16641 },
    ghost few_nodes: { nodes ≤ 22359 },
    ghost few_levels: { levels ≤ 7 },
}

// The nodes of all levels.
fn nodes(columns: usize, rows: usize, depth: u16) -> usize
    requires { (1 ≤ columns) × (columns ≤ 129) × (1 ≤ rows) × (rows ≤ 129) × (depth ≤ 6) }
{
    let mut c = columns - 1;
    let mut r = rows - 1;
    let mut n = columns * rows;
    for _ in 0..depth {
        c /= 2;
        r /= 2;
        n += (c + 1) * (r + 1);
    }
    n
}

impl Shape {
    // Nothing for settings with no sizes, or with larger ones than the buffers have.
    pub(crate) fn of(settings: Settings) -> Option<Self> {
        let columns = usize::from(settings.columns);
        let rows = usize::from(settings.rows);
        let depth = settings.depth;
        if columns < 2 || rows < 2 || 129 < columns || 129 < rows || 6 < depth {
            return None;
        }
        let pixels = columns * rows;
        let nodes = nodes(columns, rows, depth);
        let levels = usize::from(depth) + 1;
        if MOST_PIXELS < pixels || MOST_NODES < nodes {
            return None;
        }
        Some(Shape {
            settings,
            pixels,
            nodes,
            levels,
        })
    }
}
