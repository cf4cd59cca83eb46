// Text put into a lent buffer from an index on: bytes as they are, and numbers by their digits. Each call answers where the next text goes.
#![tactic(auto)]

ghost use Rattle.std.specs.Prelude.{◌≡◌, ◌+◌, ◌≤◌, ◌<◌, length};
ghost use Rattle.digits.specs.Text.{Put, digit, digits, places_in, decimal, hex16, written};

pub fn put(out: &mut [u8], at: usize, text: &[u8]) -> usize
    requires { at + length text.now ≤ length out.old }
    ensures { Put at text.now out.old out.new result }
{
    for i in 0..text.len() {
        out[at + i] = text[i];
    }
    at + text.len()
}

// With no zero in front.
pub fn put_decimal(out: &mut [u8], at: usize, n: u64) -> usize
    requires { at + 20 ≤ length out.old }
    ensures put { Put at (decimal n) out.old out.new result }
    ensures upper_bound { result ≤ at + 20 }
{
    let k = places(n);
    spell(out, at, 10, k, n);
    at + k
}

// Sixteen digits.
pub fn put_hex(out: &mut [u8], at: usize, n: u64) -> usize
    requires { at + 16 ≤ length out.old }
    ensures put { Put at (hex16 n) out.old out.new result }
    ensures value { result ≡ at + 16 }
{
    spell(out, at, 16, 16, n);
    at + 16
}

fn places(n: u64) -> usize
    ensures { (result ≡ places_in 19 n) × (result ≤ 20) }
{
    let mut k = 1;
    let mut rest = n;
    while 10 <= rest {
        rest /= 10;
        k += 1;
    }
    k
}

// From the last digit on.
fn spell(out: &mut [u8], at: usize, base: u64, k: usize, n: u64)
    requires { (1 < base) × (base ≤ 16) × (at + k ≤ length out.old) }
    ensures { out.new ≡ written at (digits base k n) out.old }
{
    let mut i = k;
    let mut rest = n;
    while 0 < i {
        i -= 1;
        out[at + i] = digit(rest % base);
        rest /= base;
    }
}

fn digit(d: u64) -> u8
    requires { d < 16 }
    ensures { result ≡ digit d }
{
    if d < 10 { 48 + d as u8 } else { 87 + d as u8 }
}
