// Sets of faults: one bit for each refusal of a table, the lowest bit for the first. A fault has four variants.
ghost use Rattle.std.specs.Prelude.{◌≡◌, ℕ, Bool, cond, ◌*◌, ◌/◌, ◌%◌, ◌<◌, min, Option, Some, slice_get, take};
ghost use Rattle.std.specs.List.{find};
ghost use Rattle.test_support.specs.Definitions.FaultSets.{chosen, member, first, answer_with, place, variant_at, variant_of};
ghost use Rattle.test_support.specs.Definitions.FaultySettings.{outside, side_with, with_sides, with_depth, with_kernel, with_black_white, with_bins, with_faults};
ghost use Rattle.test_support.specs.Definitions.Tallies.{tallied};

use crate::reporting::Tally;
use pyramid::Settings;
use refusals::Refusal;

// Which of its forms a fault has.
#[derive(Clone, Copy)]
pub enum Variant {
    First,
    Second,
    Third,
    Fourth,
}

// The four in their order.
pub const VARIANTS: [Variant; 4] = [
    Variant::First,
    Variant::Second,
    Variant::Third,
    Variant::Fourth,
];

// A set of faults, as bits of a table of what refuses them, and which variant each of them has.
#[derive(Clone, Copy)]
pub struct Faults<'a> {
    pub bits: u32,
    pub table: &'a [Refusal],
    pub variant: Variant,
}

impl<'a> Faults<'a> {
    // The first fault of the set that passes a test.
    fn find<P: Fn(Refusal) -> bool>(&self, test: P) -> Option<Refusal>
        requires { (refusal : Refusal) → P.pre test refusal }
        ensures { (passes : Refusal → Bool) → ((refusal : Refusal) (r : Bool) → P.post test refusal r → r ≡ passes refusal)
            → result ≡ find passes (chosen self.now.bits self.now.table.now) }
    {
        let mut bits = self.bits;
        for refusal in self.table {
            if bits % 2 == 1 && test(*refusal) {
                return Some(*refusal);
            }
            bits /= 2;
        }
        None
    }

    // Whether a fault is in the set.
    pub fn has(&self, fault: Refusal) -> bool
        ensures { result ≡ member fault (chosen self.now.bits self.now.table.now) }
    {
        self.find(|refusal| refusal == fault).is_some()
    }

    // The first fault of the set: what is faulty so is refused with it.
    pub fn first(&self) -> Option<Refusal>
        ensures { result ≡ first (chosen self.now.bits self.now.table.now) }
    {
        self.find(|_| true)
    }

    // Those faults of the set that are among the first of the table, so many.
    pub fn among_first(&self, count: usize) -> Faults<'a>
        ensures { (result.bits ≡ self.now.bits) × (result.table.now ≡ take count self.now.table.now) × (result.variant ≡ self.now.variant) }
    {
        Faults {
            table: self.table.get(..count).unwrap_or(self.table),
            ..*self
        }
    }

    // What is faulty so is to answer: its first fault, or this value where it has none.
    pub fn answer<T: Copy>(&self, value: T) -> Result<T, Refusal>
        ensures { result ≡ answer_with value (chosen self.now.bits self.now.table.now) }
    {
        match self.first() {
            Some(refusal) => Err(refusal),
            None => Ok(value),
        }
    }

    // The variant of a fault that is in the set.
    pub fn variant_of(&self, fault: Refusal) -> Option<Variant>
        ensures { result ≡ variant_of fault (chosen self.now.bits self.now.table.now) self.now.variant }
    {
        self.has(fault).then_some(self.variant)
    }

    // What the variant has with a fault of the set, and what it has without.
    pub fn choose<T: Copy>(&self, fault: Refusal, faulty: [T; 4], lawful: [T; 4]) -> T
        ensures { Some result ≡ slice_get (cond (member fault (chosen self.now.bits self.now.table.now)) faulty lawful) (place self.now.variant) }
    {
        let values = if self.has(fault) { faulty } else { lawful };
        match self.variant {
            Variant::First => values[0],
            Variant::Second => values[1],
            Variant::Third => values[2],
            Variant::Fourth => values[3],
        }
    }

    // Settings with those of the faults of a size, a depth, columns, rows, a kernel, black and white, and a bin that are in the set.
    pub fn put_in(&self, s: Settings) -> Settings
        ensures { result ≡ with_faults s (chosen self.now.bits self.now.table.now) self.now.variant }
    {
        let d = with_depth(s, self.has(Refusal::Depth));
        let b = with_bins(d, self.variant_of(Refusal::Bin));
        let g = with_black_white(b, self.variant_of(Refusal::BlackWhite));
        let k = with_kernel(g, self.variant_of(Refusal::Kernel));
        let size = self.variant_of(Refusal::Size);
        with_sides(k, size, self.has(Refusal::Columns), self.has(Refusal::Rows))
    }
}

// What is found in the first sets of a table's faults, by their bits, each in its four variants.
pub fn check_sets<'a, F: Copy, C: Fn(Faults<'a>) -> Option<F>>(
    table: &'a [Refusal],
    sets: u16,
    check: C,
) -> Tally<F>
    requires { (faults : Faults) → C.pre check faults }
    ensures { (found : ℕ → Variant → Option F) → ((faults : Faults) (r : Option F) → faults.table.now ≡ table.now → C.post check faults r → r ≡ found faults.bits faults.variant)
        → result ≡ tallied (λ n. found (n / 4) (variant_at (n % 4))) (4 * sets) }
{
    let mut tally = Tally::new();
    for bits in 0..u32::from(sets) {
        for variant in VARIANTS {
            tally.count(check(Faults {
                bits,
                table,
                variant,
            }));
        }
    }
    tally
}

// The slot of a number, or the last.
fn slot_of(n: u16) -> usize
    ensures { (result ≡ min n 6) × (result < 7) }
{
    usize::from(n.min(6))
}

// A side outside 2 to 129.
// Kept, here and below: columns, rows and a depth have their faults in one form, so whether they have them is all that is asked; an
// `Option<Variant>` would hold a variant that nothing reads.
fn outside(is_undivided: bool, variant: Variant) -> u16
    ensures { result ≡ outside is_undivided variant }
{
    match variant {
        Variant::First | Variant::Second if is_undivided => 130,
        Variant::First | Variant::Second => 1,
        _ if is_undivided => 65534,
        _ => 257,
    }
}

// A side such that 2 to the depth does not divide it less 1, or outside 2 to 129, or both.
fn side_with(side: u16, outside_by: Option<Variant>, is_undivided: bool) -> u16
    ensures { result ≡ side_with side outside_by is_undivided }
{
    match outside_by {
        Some(variant) => outside(is_undivided, variant),
        None if is_undivided => side.saturating_sub(1),
        None => side,
    }
}

// A size has its fault in the columns or, in every other variant, in the rows.
fn with_sides(s: Settings, size: Option<Variant>, columns: bool, rows: bool) -> Settings
    ensures { result ≡ with_sides s size columns rows }
{
    let (columns_by, rows_by) = match size {
        Some(Variant::First | Variant::Third) => (size, None),
        Some(Variant::Second | Variant::Fourth) => (None, size),
        None => (None, None),
    };
    Settings {
        columns: side_with(s.columns, columns_by, columns),
        rows: side_with(s.rows, rows_by, rows),
        ..s
    }
}

// A depth of 7 and nothing else that is refused.
fn with_depth(s: Settings, is_faulty: bool) -> Settings
    ensures { result ≡ cond is_faulty (with_depth s) s }
{
    if !is_faulty {
        return s;
    }
    Settings {
        columns: 129,
        rows: 129,
        depth: 7,
        bins: [1; 7],
        ..s
    }
}

// Kernels below and above.
fn with_kernel(s: Settings, fault: Option<Variant>) -> Settings
    ensures { result ≡ with_kernel s fault }
{
    let kernel = match fault {
        Some(Variant::First) => 2,
        Some(Variant::Second) => 7,
        Some(Variant::Third) => 0,
        Some(Variant::Fourth) => 65535,
        None => s.kernel,
    };
    Settings { kernel, ..s }
}

// A black that is white, or above white; a white above 255.
fn with_black_white(s: Settings, fault: Option<Variant>) -> Settings
    ensures { result ≡ with_black_white s fault }
{
    let (black, white) = match fault {
        Some(Variant::First) => (s.white, s.white),
        Some(Variant::Second) => (s.black, 256),
        Some(Variant::Third) => (s.white.saturating_add(1), s.white),
        Some(Variant::Fourth) => (s.black, 65535),
        None => (s.black, s.white),
    };
    Settings { black, white, ..s }
}

// No bin in slot 0; too large a bin in the slot of the depth, in the slot after it, and in the last.
fn with_bins(s: Settings, fault: Option<Variant>) -> Settings
    ensures { result ≡ with_bins s fault }
{
    let mut u = s;
    match fault {
        Some(Variant::First) => {
            u.bins[0] = 0;
        }
        Some(Variant::Second) => {
            let slot = slot_of(s.depth);
            u.bins[slot] = 256;
        }
        Some(Variant::Third) => {
            let slot = slot_of(s.depth.saturating_add(1));
            u.bins[slot] = 300;
        }
        Some(Variant::Fourth) => {
            u.bins[6] = 65535;
        }
        None => {}
    }
    u
}
