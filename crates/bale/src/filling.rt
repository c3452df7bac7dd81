// The indices of a file that is accepted, into the level buffer.
ghost use Rattle.std.specs.Prelude.{◌≡◌, ◌+◌, ◌*◌, length};
ghost use Rattle.bale.specs.Definitions.Words.{indices_at};
ghost use Rattle.bale.specs.Definitions.Reader.{levels_in};
ghost use Rattle.bale.specs.Definitions.Calls.{read_refusal};

use crate::shaped::ShapedFile;
use crate::{places, words};

// The indices of a level.
fn fill_indices(indices: &[u8], levels: &mut [i16])
    requires { length indices.now ≡ 2 * length levels.old }
    ensures { levels.new ≡ indices_at indices.now 0 (length levels.old) }
{
    let (words, _) = indices.as_chunks::<2>();
    for (i, word) in words.iter().enumerate() {
        levels[i] = i16::from_le_bytes(*word);
    }
}

impl ShapedFile<'_> {
    // The indices of all levels, level N first.
    // Kept: `from`, beside the file that is cut. With a `&mut` slice that each turn cuts by split_at_mut and hands on to the next, no proof
    // knows after the loop what the whole buffer holds (tried).
    pub fn fill(&self, levels: &mut [i16])
        requires { read_refusal self.now.bytes.now (length levels.old) ≡ 0 }
        ensures { levels.new ≡ levels_in self.now.bytes.now }
    {
        let s = self.shape.settings;
        let mut left = words::rest(self.bytes, places::levels(s));
        let mut from = 0;
        for level in (0..=s.depth).rev() {
            let nodes = self.shape.level_nodes(level) as usize;
            let (section, below) = left.split_at(2 + 2 * nodes);
            fill_indices(&section[2..], &mut levels[from..from + nodes]);
            left = below;
            from += nodes;
        }
    }
}
