//! Arithmetic of decimals of 128 bits, as IEEE 754-2008 has it.
#![tactic(auto)]

mod decimal;
pub mod laws;
mod products;
mod quotients;
mod remainders;
mod rounding;
mod sticky;
mod sums;
mod wholes;
mod wide;

pub use decimal::{Decimal, absolute, from_integer, negate};
pub use products::multiply;
pub use quotients::divide;
pub use remainders::remainder;
pub use sums::{add, subtract};
pub use wholes::{Rounding, round};
