// The parts of a double's bit pattern.
ghost use Rattle.std.specs.Prelude.{◌*◌, ◌^◌, ◌≤◌, ◌<◌};

// The weights of the exponent's field and of the sign.
pub(crate) const FIELD: u64 = 1 << 52;

pub(crate) const SIGN: u64 = 1 << 63;

// How many binary digits are missing to 53.
pub(crate) fn missing(digits: u64) -> u64
    requires { (0 < digits) × (digits < 2 ^ 53) }
    ensures { (result ≤ 52) × (2 ^ 52 ≤ digits * 2 ^ result) × (digits * 2 ^ result < 2 ^ 53) }
{
    u64::from(digits.leading_zeros()) - 11
}
