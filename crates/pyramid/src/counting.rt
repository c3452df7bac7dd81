// The sizes of the levels and their places in the buffers (document 01, "Settings" and "Buffers").
ghost use Rattle.std.specs.Prelude.{◌≡◌, ◌≤◌, ◌*◌};
ghost use Rattle.pyramid.specs.Definitions.Sizes.{last, columns_at, rows_at, nodes_at, nodes_to, total};
ghost use Rattle.pyramid.specs.Definitions.Buffers.{start};

use crate::Shape;

// The last column (row) of a level of a picture with so many columns (rows).
fn last_at(side: u16, level: u16) -> usize
    ensures { result ≡ last side level }
{
    let last = side.saturating_sub(1).checked_shr(u32::from(level));
    usize::from(last.unwrap_or(0))
}

// Kept: the bounds in what these promise, and a level's in levels.rt, so that sums and products of them are seen to fit without a lemma.
impl Shape {
    // Kept, and `rows_at`: the two names of the papers, each one call of `last_at`.
    pub(crate) fn columns_at(self, level: u16) -> usize
        ensures { (result ≡ columns_at self.settings level) × (result ≤ 129) }
    {
        last_at(self.settings.columns, level) + 1
    }

    pub(crate) fn rows_at(self, level: u16) -> usize
        ensures { (result ≡ rows_at self.settings level) × (result ≤ 129) }
    {
        last_at(self.settings.rows, level) + 1
    }

    // The nodes of a level.
    pub(crate) fn nodes_at(self, level: u16) -> usize
        ensures { (result ≡ nodes_at self.settings level) × (result ≤ 16641) }
    {
        self.rows_at(level) * self.columns_at(level)
    }

    // The nodes of levels 0 to n.
    fn nodes_to(self, n: u16) -> usize
        ensures { result ≡ nodes_to self.settings n }
    {
        let mut t = 0;
        for l in 0..=n {
            t += self.nodes_at(l);
        }
        t
    }

    // T, the number of nodes of levels 0 to the depth. The depth of a shape is never above 6: the test shows it to the compiler, which would
    // else prepare its sum for thousands of levels.
    pub(crate) fn total(self) -> usize
        ensures { (result ≡ total self.settings) × (result ≤ 22359) }
    {
        if 6 < self.settings.depth {
            return 0;
        }
        self.nodes_to(self.settings.depth)
    }

    // Where a level starts in a buffer of all levels.
    pub(crate) fn start_of(self, level: u16) -> usize
        ensures { (result ≡ start self.settings level) × (result ≤ 22359) }
    {
        self.total().saturating_sub(self.nodes_to(level))
    }
}
