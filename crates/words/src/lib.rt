// Numbers from bytes, the lowest byte first, and the floats of words.
#![tactic(auto)]

ghost use Rattle.std.specs.Prelude.{◌≡◌, ◌+◌, ◌^◌, ◌≤◌, ◌<◌, length};
ghost use Rattle.std.specs.Float.Ieee.{of_bits, nan_bits};
ghost use Rattle.std.specs.Float.{binary64};
ghost use Rattle.words.specs.Words.{little_endian};

// The weight of the sign.
const SIGN: u64 = 0x8000_0000_0000_0000;

const INFINITY: u64 = 0x7ff0_0000_0000_0000;

// The word of eight bytes that starts at index `at`.
pub fn word_at(bytes: &[u8], at: usize) -> u64
    requires { at + 8 ≤ length bytes.now }
    ensures { result ≡ little_endian 8 bytes.now at }
{
    let word: &[u8; 8] = bytes[at..].first_chunk().unwrap();
    u64::from_le_bytes(*word)
}

pub fn pair_at(bytes: &[u8], at: usize) -> u64
    requires { at + 2 ≤ length bytes.now }
    ensures { (result ≡ little_endian 2 bytes.now at) × (result < 2 ^ 16) }
{
    let pair: &[u8; 2] = bytes[at..].first_chunk().unwrap();
    u64::from(u16::from_le_bytes(*pair))
}

pub fn wide(byte: u8) -> u64
    ensures { (result ≡ byte) × (result < 2 ^ 8) }
{
    u64::from(byte)
}

// The float of a pattern. Every pattern of a NaN gives the one NaN.
pub fn float(bits: u64) -> f64
    ensures { result ≡ of_bits binary64 bits }
{
    if is_nan(bits) {
        f64::NAN
    } else {
        f64::from_bits(bits)
    }
}

pub fn is_nan(bits: u64) -> bool
    ensures { result ≡ nan_bits binary64 bits }
{
    INFINITY < bits % SIGN
}
