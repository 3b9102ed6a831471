// A pattern taken apart: as it stands, and for the root into 53 or 54 digits and an exponent that is even.
ghost use Rattle.std.specs.Prelude.{◌^◌, ◌<◌};
ghost use Rattle.root.specs.Parts.{infinity, IsUnits, IsNormal, IsSplit};

// 2^52: the leading digit of a number with 53, and one step of the exponent field.
pub const LEADING: u64 = 4503599627370496;
// An exponent field of 2047 and no digits.
pub const INFINITY: u64 = 9218868437227405312;
// The sign alone: the pattern of -0.
pub const SIGN: u64 = 9223372036854775808;

// digits * 2^exponent is the value, as a multiple of what the function says.
#[derive(Clone, Copy)]
pub struct Scaled {
    pub digits: u64,
    pub exponent: u64,
}

// digits * 2^54 * 4^half is the value as a multiple of 2^-2148, so that its root has the unit 2^-1074. There are 53 or 54 digits.
#[derive(Clone, Copy)]
pub struct Parts {
    pub digits: u64,
    pub half: u64,
}

// The value in units of 2^-1074, as the pattern has it: the exponent is 0 below the smallest normal number, and there are 53 digits from there on.
pub fn in_units(b: u64) -> Scaled
    requires { b < infinity }
    ensures { IsUnits b result.digits result.exponent }
{
    if b < LEADING {
        return Scaled {
            digits: b,
            exponent: 0,
        };
    }
    Scaled {
        digits: LEADING + b % LEADING,
        exponent: b / LEADING - 1,
    }
}

pub fn split(b: u64) -> Parts
    requires { (0 < b) × (b < infinity) }
    ensures { IsSplit b result.digits result.half }
{
    let n = normal(b);
    let half = n.exponent / 2 + 484;
    if n.exponent % 2 == 0 {
        Parts {
            digits: n.digits,
            half,
        }
    } else {
        Parts {
            digits: n.digits * 2,
            half,
        }
    }
}

// The value as a multiple of 2^-1126, with 53 digits.
fn normal(b: u64) -> Scaled
    requires { (0 < b) × (b < infinity) }
    ensures { IsNormal b result.digits result.exponent }
{
    let field = b / LEADING;
    if field == 0 {
        subnormal(b)
    } else {
        Scaled {
            digits: LEADING + b % LEADING,
            exponent: field + 51,
        }
    }
}

// Below the smallest normal number the leading digit is brought to its place one step at a time.
fn subnormal(b: u64) -> Scaled
    requires { (0 < b) × (b < 2 ^ 52) }
    ensures { IsNormal b result.digits result.exponent }
{
    let mut digits = b;
    let mut exponent: u64 = 52;
    while digits < LEADING {
        digits = digits * 2;
        exponent = exponent - 1;
    }
    Scaled { digits, exponent }
}
