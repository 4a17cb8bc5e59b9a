// The places of a word that a polynomial's roots name, and what is added to the octets there.
// Kept: five functions here and beside ask that a power is below 255; a type for that would be unpacked in each to a number to multiply by.
ghost use Rattle.std.specs.Prelude.{◌≡◌, ℕ, ◌<◌, ◌≤◌, length, drop, slice_index};
ghost use Rattle.octets.specs.Words.{word_length, max_reach};
ghost use Rattle.rs16.specs.Field.{pow};
ghost use Rattle.rs16.specs.Mending.{locator, Values, zero_at, chosen, evaluator, change};
ghost use Rattle.rs16.specs.Polynomials.{from_roots};

use crate::coefficients::{Polynomial, applied, evaluated, evaluated_at, slope_at, times_linear};
use crate::field::{inverse, line_octet_of, power, product};
use std::array;

// The locator of the octet at power k.
fn locator_at(k: usize) -> u8
    requires { k < 255 }
    ensures { result ≡ locator k }
{
    power(11 * k % 255)
}

// The locator to the power 112, that of the first root.
fn lift_at(k: usize) -> u8
    requires { k < 255 }
    ensures { result ≡ pow (locator k) 112 }
{
    power(1232 * k % 255)
}

// The values of a polynomial at the locators, by power.
pub(crate) fn values_of(p: &Polynomial) -> [u8; 255]
    ensures { Values p.now result }
{
    array::from_fn(|k| evaluated_at(p, 11 * k % 255))
}

// The locator polynomial: the product of z + X, over the locators of the powers whose value is 0.
pub(crate) fn locator_polynomial(values: &[u8; 255]) -> Polynomial
    requires { length (chosen (zero_at values.now) word_length) ≤ max_reach }
    ensures { (i : ℕ) → slice_index result i ≡ slice_index (from_roots (chosen (zero_at values.now) word_length)) i }
{
    let mut p = [0; 17];
    p[0] = 1;
    for (k, value) in values.iter().enumerate() {
        if *value == 0 {
            p = times_linear(&p, locator_at(k));
        }
    }
    p
}

// The evaluator polynomial.
pub(crate) fn evaluator_polynomial(p: &Polynomial, s: &[u8; 32]) -> [u8; 16]
    ensures { result ≡ evaluator (drop 1 p.now) s.now }
{
    array::from_fn(|j| applied(&p[j + 1..], s))
}

// What is added to the octet at power k: the evaluator's value over the slope and the lift.
pub(crate) fn change_at(p: &Polynomial, o: &[u8; 16], k: usize) -> u8
    requires { k < 255 }
    ensures { result ≡ change p.now o.now k }
{
    let x = locator_at(k);
    let below = product(slope_at(p, x), lift_at(k));
    line_octet_of(product(evaluated(o, x), inverse(below)))
}
