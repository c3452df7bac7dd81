// Numbers in a file, low byte first (document 01, "Bale file").
// Kept: a file and a place in it, for the settings, which are read past the file's end too (finding.rt).
ghost use Rattle.std.specs.Prelude.{◌≡◌, ◌+◌, get_or, drop};
ghost use Rattle.mathematics.specs.Definitions.Tables.{tabulate};
ghost use Rattle.bale.specs.Definitions.Words.{u16_at, u32_at};

// The bytes from a place on; none past the end.
// Kept beside test_support's, and `byte_at`: the product and its tests share no code.
pub fn rest(bytes: &[u8], at: usize) -> &[u8]
    ensures { result.now ≡ drop at bytes.now }
{
    bytes.get(at..).unwrap_or(&[])
}

// The byte at a place, and 0 past the end.
pub fn byte_at(bytes: &[u8], at: usize) -> u8
    ensures { result ≡ get_or bytes.now at 0 }
{
    bytes.get(at).copied().unwrap_or(0)
}

// The N bytes at a place, past the end too.
fn bytes_at<const N: usize>(bytes: &[u8], at: usize) -> [u8; N]
    ensures { result ≡ tabulate N (λ i. get_or bytes.now (at + i) 0) }
{
    let number = rest(bytes, at);
    std::array::from_fn(|i| byte_at(number, i))
}

// The number of the two bytes at a place, past the end too.
// Kept beside u32_at: `from_le_bytes` is a function of each width alone, and no trait of std has it; `FromBytes` of num_traits has it, which
// would make two lines one, and add a crate.
pub fn u16_at(bytes: &[u8], at: usize) -> u16
    ensures { result ≡ u16_at bytes.now at }
{
    u16::from_le_bytes(bytes_at(bytes, at))
}

// The number of the four bytes at a place, past the end too.
pub fn u32_at(bytes: &[u8], at: usize) -> u32
    ensures { result ≡ u32_at bytes.now at }
{
    u32::from_le_bytes(bytes_at(bytes, at))
}
