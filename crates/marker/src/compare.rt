// How seven octets differ from the marker expected.
ghost use Rattle.std.specs.Prelude.{◌≡◌};
ghost use Rattle.marker.specs.Reading.{digits_apart, first_cause};

use crate::{Cause, read_marker};

// In how many of the 56 digits two markers differ.
pub fn digits_apart(a: &[u8; 7], b: &[u8; 7]) -> usize
    ensures { result ≡ digits_apart a.now b.now }
{
    let mut digits = 0;
    for (x, y) in a.iter().zip(b) {
        digits += (x ^ y).count_ones() as usize;
    }
    digits
}

// The first cause why seven octets are not the marker of this count: sync word, parity, count. None if they are that marker.
pub fn first_cause(octets: &[u8; 7], expected: usize) -> Option<Cause>
    ensures { result ≡ first_cause expected octets.now }
{
    match read_marker(octets) {
        Some(read) if !read.sync_right => Some(Cause::SyncWord),
        Some(read) if !read.parity_right => Some(Cause::Parity),
        Some(read) if read.count != expected => Some(Cause::Count),
        _ => None,
    }
}
