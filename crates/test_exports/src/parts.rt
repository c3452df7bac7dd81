// Settings and readings as the exported functions take them and hand them out: one array of numbers each.
use pyramid::Settings;

// A reading as a kind and a number.
// Kept: a kind is the number of 32 bits that the exported functions take and hand out, any of them.
#[derive(Clone, Copy)]
pub(crate) struct Coded {
    pub kind: u32,
    pub number: u32,
}

// The two readings, before the drier first.
pub(crate) type Readings = [Coded; 2];

pub(crate) fn code(kind: u32, number: u32) -> Coded {
    Coded { kind, number }
}

// C, R, N, k, black and white in this order, then the bins, slot 0 first.
pub(crate) fn settings_array(s: Settings) -> [u16; 13] {
    let [b0, b1, b2, b3, b4, b5, b6] = s.bins;
    [
        s.columns, s.rows, s.depth, s.kernel, s.black, s.white, b0, b1, b2, b3, b4, b5, b6,
    ]
}

// Each kind before its number.
pub(crate) fn note_array(r: Readings) -> [u32; 4] {
    let [drier, press] = r;
    [drier.kind, drier.number, press.kind, press.number]
}

// 3 columns, 2 rows, N = 0, k = 5, every grey: a file of 40 bytes with six indices.
pub(crate) fn small(bin: u16) -> Settings {
    Settings {
        columns: 3,
        rows: 2,
        depth: 0,
        kernel: 5,
        black: 0,
        white: 255,
        bins: [bin, 0, 0, 0, 0, 0, 0],
    }
}
