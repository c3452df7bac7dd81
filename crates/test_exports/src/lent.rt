// Settings whose numbers all differ, and what the lent numbers hold before a call.
use pyramid::Settings;
use test_support::comparing::first_difference;
use test_support::fillers::{byte_filler, first_changed};

// 5 columns, 9 rows, N = 2, k = 3, black 16 and white 235: levels of 45, 15 and 6 nodes.
pub(crate) const TALL: Settings = Settings {
    columns: 5,
    rows: 9,
    depth: 2,
    kernel: 3,
    black: 16,
    white: 235,
    bins: [7, 4, 2, 0, 0, 0, 0],
};

// 129 columns, 65 rows, N = 6, k = 4, every grey: levels of 8,385, 2,145, 561, 153, 45, 15 and 6 nodes.
pub(crate) const WIDE: Settings = Settings {
    columns: 129,
    rows: 65,
    depth: 6,
    kernel: 4,
    black: 0,
    white: 255,
    bins: [31, 16, 9, 23, 7, 3, 11],
};

// What a lent number holds before a call; no call leaves it.
// Kept: a number as calls hand them out, for no enum to name: it stands for no kind and no refusal, and differs from all that is handed out.
pub(crate) const BEFORE: u16 = 60001;

// What lent bounds hold before a call.
pub(crate) const BOUNDS_BEFORE: [u16; 7] = [60011, 60012, 60013, 60014, 60015, 60016, 60017];

// What a call answers, and what it leaves in the place that is lent to it.
pub(crate) fn answered<T: Copy, F: FnOnce(&mut T) -> u16>(before: T, call: F) -> (u16, T)
    requires { F.IsAlwaysCallable call }
{
    let mut left = before;
    let answer = call(&mut left);
    (answer, left)
}

// What a call is to answer and to leave: 0 and a value, or a refusal and what was there before.
// Kept: refusals are numbers in this crate: documents 01 and 02 promise them to callers in C, and how a `Refusal` becomes its number is code
// that is tested here, so the numbers are written by hand from the documents.
pub(crate) fn expected<T: Copy>(before: T, e: Result<T, u16>) -> (u16, T) {
    match e {
        Ok(value) => (0, value),
        Err(refusal) => (refusal, before),
    }
}

// Whether a buffer of fillers holds these bytes at its start after a call, and its fillers after them.
pub(crate) fn holds(buffer: &[u8], bytes: &[u8]) -> bool {
    let n = bytes.len();
    first_difference(buffer, bytes).is_none() && first_changed(buffer, n, byte_filler).is_none()
}

pub(crate) fn with_black_white(s: Settings, black: u16, white: u16) -> Settings {
    Settings { black, white, ..s }
}

// Lawful settings with one fault each, and its refusal: a side of 130, a depth of 7, columns or rows that 2 to the depth does not divide
// less 1, a kernel, black at white, black above white, a white of 256, and the bin of level 0.
pub(crate) fn faulty(s: Settings) -> [(Settings, u16); 9] {
    let mut bins = s.bins;
    bins[0] = 0;
    [
        (Settings { rows: 130, ..s }, 1),
        (Settings { depth: 7, ..s }, 13),
        (Settings { columns: 8, ..s }, 14),
        (Settings { rows: 8, ..s }, 15),
        (Settings { kernel: 7, ..s }, 2),
        (with_black_white(s, 200, 200), 19),
        (with_black_white(s, 235, 234), 19),
        (with_black_white(s, 16, 256), 19),
        (Settings { bins, ..s }, 3),
    ]
}

// The same with black at white besides: of their refusals 3 alone comes after 19.
pub(crate) fn twice_faulty(s: Settings) -> [(Settings, u16); 9] {
    faulty(s).map(|(f, refusal)| {
        let first = if refusal == 3 { 19 } else { refusal };
        (with_black_white(f, 200, 200), first)
    })
}
