// Little-endian numbers and settings from bytes. A byte past the end counts as 0.
// Kept beside bale's: the tests share no code with the decoding they test.
ghost use Rattle.std.specs.Prelude.{◌≡◌, ◌+◌, get_or};
ghost use Rattle.mathematics.specs.Definitions.Tables.{tabulate};
ghost use Rattle.test_support.specs.Definitions.Numbers.{unsigned16, unsigned32, signed16, signed32, settings_length, settings_with, settings};

use crate::reading::rest;
use pyramid::Settings;
use std::array;

pub fn byte_at(bytes: &[u8], at: usize) -> u8
    ensures { result ≡ get_or bytes.now at 0 }
{
    bytes.get(at).copied().unwrap_or(0)
}

// The N bytes at a place.
fn bytes_at<const N: usize>(bytes: &[u8], at: usize) -> [u8; N]
    ensures { result ≡ tabulate N (λ i. get_or bytes.now (at + i) 0) }
{
    let number = rest(bytes, at);
    array::from_fn(|i| byte_at(number, i))
}

// Kept beside unsigned32_at: `from_le_bytes` is a function of each width alone, and no trait of the library has it.
pub fn unsigned16_at(bytes: &[u8], at: usize) -> u16
    ensures { result ≡ unsigned16 bytes.now at }
{
    u16::from_le_bytes(bytes_at(bytes, at))
}

pub fn unsigned32_at(bytes: &[u8], at: usize) -> u32
    ensures { result ≡ unsigned32 bytes.now at }
{
    u32::from_le_bytes(bytes_at(bytes, at))
}

// Two's complement of 16 bits.
// Kept: of the two signed numbers each is one call of its own width.
pub fn signed16_at(bytes: &[u8], at: usize) -> i16
    ensures { result ≡ signed16 bytes.now at }
{
    unsigned16_at(bytes, at).cast_signed()
}

// Two's complement of 32 bits.
pub fn signed32_at(bytes: &[u8], at: usize) -> i32
    ensures { result ≡ signed32 bytes.now at }
{
    unsigned32_at(bytes, at).cast_signed()
}

// Settings whose bins start at a place: 14 bytes, slot 0 first.
fn settings_with(bytes: &[u8], black: u16, white: u16, at: usize) -> Settings
    ensures { result ≡ settings_with bytes.now black white at }
{
    let bins = rest(bytes, at);
    Settings {
        columns: unsigned16_at(bytes, 0),
        rows: unsigned16_at(bytes, 2),
        depth: unsigned16_at(bytes, 4),
        kernel: unsigned16_at(bytes, 6),
        black,
        white,
        bins: array::from_fn(|slot| unsigned16_at(bins, 2 * slot)),
    }
}

// How settings stand in bytes: C, R, N, k and the seven bins, where black is 0 and white is 255; or with black and white before the bins.
#[derive(Clone, Copy)]
pub enum Form {
    Short,
    Greys,
}

impl Form {
    // How many bytes the settings have.
    pub fn length(self) -> usize
        ensures { result ≡ settings_length self }
    {
        match self {
            Form::Short => 22,
            Form::Greys => 26,
        }
    }

    pub fn settings(self, bytes: &[u8]) -> Settings
        ensures { result ≡ settings bytes.now self }
    {
        match self {
            Form::Short => settings_with(bytes, 0, 255, 8),
            Form::Greys => {
                settings_with(bytes, unsigned16_at(bytes, 8), unsigned16_at(bytes, 10), 12)
            }
        }
    }
}
