// The weights, the edge, and the sums of products that REDUCE and EXPAND are made of (document 01, "Pyramid steps").
ghost use Rattle.std.specs.Prelude.{◌≡◌, ◌+◌, ◌-◌, ◌*◌, ◌≤◌, pos, ◌+ℤ◌, ◌*ℤ◌};
ghost use Rattle.pyramid.specs.Inner.Lawful.{Kernel};
ghost use Rattle.pyramid.specs.Definitions.Weights.{weight};
ghost use Rattle.pyramid.specs.Definitions.Edge.{reflect};
ghost use Rattle.pyramid.specs.Inner.Rows.{Within};

// In twentieths: a row for each kernel from 3 to 6, a column for each distance from the centre.
const WEIGHTS: [[i32; 3]; 4] = [[6, 5, 2], [8, 5, 1], [10, 5, 0], [12, 5, -1]];

// The weight beside the centre, which all kernels share.
const BESIDE: i32 = WEIGHTS[0][1];

// The weights of a kernel, by half of the centre's. The outer weight is what that lacks of the one beside the centre.
#[derive(Clone, Copy)]
pub struct Weights {
    pub kernel: u16,
    half: i32,
    ghost lawful: { Kernel kernel },
    ghost half_is: { half ≡ pos kernel },
}

impl Weights {
    pub fn new(kernel: u16) -> Self
        requires { Kernel kernel }
        ensures { result.kernel ≡ kernel }
    {
        let [centre, beside, outer] = WEIGHTS[usize::from(kernel - 3)];
        let half = centre / 2;
        prove!(beside == BESIDE && outer == BESIDE - half);
        Weights { kernel, half }
    }

    // The sum of five values, weighed by their distance from the one in the middle. Half of the centre's weight stands in the outer weights
    // too, so that one product serves both.
    pub fn five(self, a: i32, b: i32, c: i32, d: i32, e: i32) -> i32
        requires { (Within 8388608 a) × (Within 8388608 b) × (Within 8388608 c) × (Within 8388608 d)
            × (Within 8388608 e) }
        ensures { result ≡ weight self.kernel 4 *ℤ (a +ℤ e) +ℤ weight self.kernel 3 *ℤ (b +ℤ d)
            +ℤ weight self.kernel 2 *ℤ c }
    {
        let outer = a + e;
        self.half * (2 * c - outer) + BESIDE * (b + d + outer)
    }

    // What EXPAND takes at an even column or row: the centre and the outer two.
    pub fn even(self, a: i32, b: i32, c: i32) -> i32
        requires { (Within 8388608 a) × (Within 8388608 b) × (Within 8388608 c) }
        ensures { result ≡ weight self.kernel 4 *ℤ (a +ℤ c) +ℤ weight self.kernel 2 *ℤ b }
    {
        self.five(a, 0, b, 0, c)
    }

    // At an odd one: the two beside it.
    pub fn odd(self, a: i32, b: i32) -> i32
        requires { (Within 8388608 a) × (Within 8388608 b) }
        ensures { result ≡ weight self.kernel 3 *ℤ (a +ℤ b) }
    {
        BESIDE * (a + b)
    }
}

// The column (row) that place p stands for, where z is the last: column p - 2, reflected at the nearer edge.
pub fn reflected(z: usize, p: usize) -> usize
    requires { z ≤ 128 }
    ensures { result ≡ reflect z p }
{
    let column = p.abs_diff(2);
    column.min((2 * z).abs_diff(column))
}
