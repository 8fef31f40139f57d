//! A decimal's sign, coefficient and exponent, and its 128 bits.

ghost use Rattle.std.specs.Prelude.{◌≡◌};
ghost use Rattle.bson_base.specs.Decimal.{within_limit as limited_of, number_of, decimal_sign_bit as sign_bit_of, sixteen_bytes, unpack};
ghost use Rattle.bson_base.specs.DecimalParts.{IsPackable, decimal_of_parts, bits_of_parts};

/// The digits of a coefficient (IEEE 754-2008, decimal128).
pub(super) const DIGITS: usize = 34;
/// What is added to an exponent in the 128 bits.
pub(super) const BIAS: usize = 6176;
/// The greatest exponent, with that bias.
pub(super) const GREATEST_EXPONENT: u16 = 12287;

/// The parts of a decimal.
#[derive(Clone, Copy)]
pub(crate) enum Parts {
    NotANumber {
        negative: bool,
        signalling: bool,
    },
    Infinite {
        negative: bool,
    },
    Finite {
        negative: bool,
        coefficient: u128,
        /// With its bias.
        exponent: u16,
    },
}

impl Parts {
    /// The parts of 128 bits.
    #[tactic(auto, unfolding(crate::specs::Decimal::unpack))]
    pub(crate) fn of_bits(bits: u128) -> Parts
        ensures { decimal_of_parts result ≡ unpack bits }
    {
        let negative = bits / (1 << 127) == 1;
        if bits / (1 << 123) % 16 == 15 {
            if bits / (1 << 122) % 2 == 1 {
                let signalling = bits / (1 << 121) % 2 == 1;
                Parts::NotANumber {
                    negative,
                    signalling,
                }
            } else {
                Parts::Infinite { negative }
            }
        } else if bits / (1 << 125) % 4 == 3 {
            Parts::Finite {
                negative,
                coefficient: 0,
                exponent: (bits / (1 << 111) % (1 << 14)) as u16,
            }
        } else {
            Parts::Finite {
                negative,
                coefficient: limited(bits % (1 << 113)),
                exponent: (bits / (1 << 113) % (1 << 14)) as u16,
            }
        }
    }

    /// The 128 bits of parts.
    pub(crate) fn to_bits(self) -> u128
        requires { IsPackable self }
        ensures { result ≡ bits_of_parts self }
    {
        match self {
            Parts::NotANumber {
                negative,
                signalling,
            } => { sign_bit(negative) + (31 << 122) + if signalling { 1 << 121 } else { 0 } }
            Parts::Infinite { negative } => sign_bit(negative) + (30 << 122),
            Parts::Finite {
                negative,
                coefficient,
                exponent,
            } => { sign_bit(negative) + (exponent as u128) * (1 << 113) + coefficient }
        }
    }
}

const LIMIT: u128 = 10_000_000_000_000_000_000_000_000_000_000_000;

/// A coefficient, which counts as 0 if it is over its limit (IEEE 754-2008, 3.5.2).
pub fn limited(coefficient: u128) -> u128
    ensures { result ≡ limited_of coefficient }
{
    if coefficient < LIMIT { coefficient } else { 0 }
}

/// The highest of the 128 bits, which is set in a negative decimal (IEEE 754-2008, 3.5.2), and 0 for a positive one.
fn sign_bit(negative: bool) -> u128
    ensures { result ≡ sign_bit_of negative }
{
    if negative { 1 << 127 } else { 0 }
}

/// The number of 16 bytes, the lowest first.
pub fn number_of_bytes(bytes: &[u8; 16]) -> u128
    ensures { result ≡ number_of bytes.now }
{
    u128::from_le_bytes(*bytes)
}

/// The 16 bytes of a number, the lowest first.
#[tactic(auto, unfolding(crate::specs::Decimal::sixteen_bytes))]
pub fn bytes_of_number(number: u128) -> [u8; 16]
    ensures { result ≡ sixteen_bytes number }
{
    number.to_le_bytes()
}
