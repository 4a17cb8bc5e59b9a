// Reading a marker.
ghost use Rattle.std.specs.Prelude.{◌≡◌};
ghost use Rattle.marker.specs.Reading.{reading};

use crate::Reading;

// What seven octets say, right or wrong: the sync word in the first four, count and parity in the other three.
// Nothing if there are not seven.
pub fn read_marker(octets: &[u8]) -> Option<Reading>
    ensures { result ≡ reading octets.now }
{
    let [first, second, third, fourth, high, middle, low] = octets else {
        return None;
    };
    let field = u32::from_be_bytes([0, *high, *middle, *low]);
    Some(Reading {
        count: (field / 2) as usize,
        sync_right: [*first, *second, *third, *fourth] == [0x1A, 0xCF, 0xFC, 0x1D],
        parity_right: field.count_ones() % 2 == 0,
    })
}
