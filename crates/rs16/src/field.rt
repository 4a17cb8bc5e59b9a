// The field by tables: products by logarithms, and the dual basis.
ghost use Rattle.std.specs.Prelude.{◌≡◌, ◌<◌};
ghost use Rattle.rs16.specs.Field.{mul, pow, inv, alpha};
ghost use Rattle.rs16.specs.DualBasis.{line_octet, element};

use crate::tables::{ELEMENTS, LINE_OCTETS, LOGARITHMS, POWERS};

// α to the power i.
pub(crate) fn power(i: usize) -> u8
    requires { i < 510 }
    ensures { result ≡ pow alpha i }
{
    POWERS[i]
}

// The power of α that an element other than 0 is.
pub(crate) fn logarithm(a: u8) -> usize
    requires { 0 < a }
    ensures low { result < 255 }
    ensures power { pow alpha result ≡ a }
{
    LOGARITHMS[a as usize] as usize
}

// The product of two elements.
pub fn product(a: u8, b: u8) -> u8
    ensures { result ≡ mul a b }
{
    if a == 0 || b == 0 {
        0
    } else {
        let i = logarithm(a);
        let j = logarithm(b);
        power(i + j)
    }
}

// An element times α to the power e: where one factor stays, its logarithm is found once.
pub(crate) fn times_power(a: u8, e: usize) -> u8
    requires { e < 255 }
    ensures { result ≡ mul a (pow alpha e) }
{
    if a == 0 {
        0
    } else {
        let i = logarithm(a);
        power(i + e)
    }
}

// The inverse of an element; of 0 it is 0.
pub(crate) fn inverse(a: u8) -> u8
    ensures { result ≡ inv a }
{
    if a == 0 { 0 } else { power(255 - logarithm(a)) }
}

// The line octet of an element.
pub fn line_octet_of(a: u8) -> u8
    ensures value { result ≡ line_octet a }
    ensures back { element result ≡ a }
{
    LINE_OCTETS[a as usize]
}

// The element of a line octet.
pub fn element_of(octet: u8) -> u8
    ensures value { result ≡ element octet }
    ensures back { line_octet result ≡ octet }
{
    ELEMENTS[octet as usize]
}
