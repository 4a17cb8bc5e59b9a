// Polynomials over the field, as small arrays of coefficients, lowest first.
ghost use Rattle.std.specs.Prelude.{◌≡◌, ℕ, ◌+◌, ◌<◌, ◌≤◌, ◌∷◌, bit_xor, length, slice_index};
ghost use Rattle.rs16.specs.Field.{mul, pow, alpha};
ghost use Rattle.rs16.specs.Polynomials.{eval, apply, slope};

use crate::field::{product, times_power};
use std::array;

// A polynomial of degree 16 at most.
pub(crate) type Polynomial = [u8; 17];

// The value at x.
pub(crate) fn evaluated(p: &[u8], x: u8) -> u8
    ensures { result ≡ eval p.now x }
{
    p.iter().rev().fold(0, |sum, c| *c ^ product(x, sum))
}

// The value at α to the power e.
pub(crate) fn evaluated_at(p: &Polynomial, e: usize) -> u8
    requires { e < 255 }
    ensures { result ≡ eval p.now (pow alpha e) }
{
    p.iter().rev().fold(0, |sum, c| *c ^ times_power(sum, e))
}

// The sum of the products of coefficient and syndrome at the same index.
pub(crate) fn applied(p: &[u8], s: &[u8]) -> u8
    requires { length p.now ≤ length s.now }
    ensures { result ≡ apply p.now (λ m. slice_index s.now m) }
{
    let mut sum = 0;
    for (c, syndrome) in p.iter().zip(s) {
        sum ^= product(*c, *syndrome);
    }
    sum
}

// The coefficient one place below k; below the lowest it is 0.
fn below(p: &Polynomial, k: usize) -> u8
    requires { k < 17 }
    ensures { result ≡ slice_index (0 ∷ p.now) k }
{
    if k == 0 { 0 } else { p[k - 1] }
}

// The polynomial times z + x. Its degree is below 16, so that there is room.
pub(crate) fn times_linear(p: &Polynomial, x: u8) -> Polynomial
    ensures { (k : ℕ) → k < 17 → slice_index result k ≡ bit_xor (slice_index (0 ∷ p.now) k) (mul x (slice_index p.now k)) }
{
    array::from_fn(|k| below(p, k) ^ product(x, p[k]))
}

// The value at x of the polynomial divided by z + x.
pub(crate) fn slope_at(p: &Polynomial, x: u8) -> u8
    ensures { result ≡ slope p.now x }
{
    let mut value = 0;
    let mut sum = 0;
    for c in p[1..].iter().rev() {
        value = *c ^ product(x, value);
        sum = value ^ product(x, sum);
    }
    sum
}
