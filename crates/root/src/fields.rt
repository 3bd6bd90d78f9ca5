// A float's pattern by shifts and masks: taken apart into significand and exponent, the exponent halved, and put together again.

ghost use Rattle.std.specs.Prelude.{◌+◌, ◌*◌, ◌≤◌, ◌<◌, ◌^◌, ◌≡◌};
ghost use Rattle.std.specs.Int.Signed.{mag};
ghost use Rattle.root.specs.Fields.{Split, odd_bit, half, raised};

use crate::INFINITY;

// The value m * 2^(e - 52).
#[derive(Clone, Copy)]
pub struct Scaled {
    pub m: u64,
    pub e: i32,
    ghost digits: { m < 2 ^ 53 },
    ghost near: { mag e < 1100 },
}

impl Scaled {
    // b's value, where m has 53 bits. A subnormal is first brought up by its leading zeros.
    pub(crate) fn of(b: u64) -> Scaled
        requires { (0 < b) × (b < INFINITY) }
        ensures { Split b result.m result.e }
    {
        let field = b >> 52;
        let digits = b & 0xf_ffff_ffff_ffff;
        if field == 0 {
            let z = digits.leading_zeros() - 11;
            return Scaled {
                m: digits << z,
                e: -1022 - z as i32,
            };
        }
        Scaled {
            m: digits + 0x10_0000_0000_0000,
            e: field as i32 - 1023,
        }
    }

    // One bit is shifted into the significand where the exponent is odd.
    pub(crate) fn evened(self) -> u64
        ensures { result ≡ self.m * 2 ^ odd_bit self.e }
    {
        if self.e % 2 == 0 { self.m } else { self.m << 1 }
    }

    // Half the exponent, rounded down on both sides of zero: a negative one is negated, halved upwards and negated again.
    pub(crate) fn halved(self) -> i32
        ensures { result ≡ half self.e }
    {
        if self.e < 0 {
            -((1 - self.e) / 2)
        } else {
            self.e / 2
        }
    }
}

// The pattern of q * 2^(h - 52), where q has 53 bits: the leading one is not stored.
pub(crate) fn rebuilt(h: i32, q: u64) -> u64
    requires { (mag h < 600) × (2 ^ 52 ≤ q) × (q < 2 ^ 53) }
    ensures { result ≡ raised 1022 h * 2 ^ 52 + q }
{
    (((h + 1023) as u64) << 52) | (q & 0xf_ffff_ffff_ffff)
}
