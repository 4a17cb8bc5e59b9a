// Elimination: a polynomial of degree 16 at most, other than 0, that gives 0 on the first sixteen windows of the syndromes.
ghost use Rattle.std.specs.Prelude.{◌≡◌, ℕ, ◌<◌, bit_xor, slice_index};
ghost use Rattle.octets.specs.Words.{max_reach};
ghost use Rattle.rs16.specs.Field.{mul};
ghost use Rattle.rs16.specs.Mending.{Monic, Solution};
ghost use Rattle.rs16.specs.Elimination.{Pivots, Reduces};

use crate::coefficients::{Polynomial, applied};
use crate::field::{inverse, logarithm, product, times_power};
use std::array;

// A row, plus f times another.
fn combined(r: &Polynomial, q: &Polynomial, f: u8) -> Polynomial
    requires { 0 < f }
    ensures { (k : ℕ) → k < 17 → slice_index result k ≡ bit_xor (slice_index r.now k) (mul f (slice_index q.now k)) }
{
    let e = logarithm(f);
    array::from_fn(|k| r[k] ^ times_power(q[k], e))
}

// f times a row.
fn multiplied(r: Polynomial, f: u8) -> Polynomial
    ensures { (k : ℕ) → k < 17 → slice_index result k ≡ mul f (slice_index r k) }
{
    r.map(|c| product(f, c))
}

// A row reduced by the pivots that there are.
enum Reduced {
    // it gives 0 on all windows
    Solves(Polynomial),
    // it gives 0 on the windows before this one, and `value` on it, and there is no pivot to make that 0
    Stops {
        row: Polynomial,
        window: usize,
        value: u8,
    },
}

// The row made 0 on one window after the other by the pivots, up to the first where it is not 0 and there is no pivot.
fn reduce(mut row: Polynomial, n: usize, pivots: &[Option<Polynomial>; 16], s: &[u8; 32]) -> Reduced
    requires degree { n < 17 }
    requires monic { Monic max_reach n row }
    requires pivots { Pivots max_reach s.now n pivots.now }
    ensures { Reduces max_reach s.now n pivots.now result }
{
    for (window, pivot) in pivots.iter().enumerate() {
        let value = applied(&row[..=n], &s[window..]);
        if value != 0 {
            let Some(pivot) = pivot else {
                return Reduced::Stops { row, window, value };
            };
            row = combined(&row, pivot, value);
        }
    }
    Reduced::Solves(row)
}

// The powers of z are reduced one after the other: the first that all windows let through is the answer, and each other
// becomes the pivot of the window where it stopped. There are seventeen powers and sixteen windows.
pub(crate) fn solution(s: &[u8; 32]) -> Polynomial
    ensures { Solution max_reach result s.now }
{
    let mut pivots = [None; 16];
    for n in 0..17 {
        let mut power = [0; 17];
        power[n] = 1;
        match reduce(power, n, &pivots, s) {
            Reduced::Solves(row) => return row,
            Reduced::Stops { row, window, value } => {
                pivots[window] = Some(multiplied(row, inverse(value)));
            }
        }
    }
    unreachable!()
}
