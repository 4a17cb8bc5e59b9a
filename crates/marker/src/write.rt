// Writing a marker.
ghost use Rattle.std.specs.Prelude.{◌≡◌};
ghost use Rattle.marker.specs.Marker.{marker_answer};

// The marker of a count: the sync word, then the count in 23 digits and a digit that makes the ones of the 24 even.
// Nothing for a count of more than 23 digits, which no marker can hold.
pub fn write_marker(count: usize) -> Option<[u8; 7]>
    ensures { result ≡ marker_answer count }
{
    if count >= 8_388_608 {
        return None;
    }
    let field = 2 * count as u32 + count.count_ones() % 2;
    let [_, high, middle, low] = field.to_be_bytes();
    Some([0x1A, 0xCF, 0xFC, 0x1D, high, middle, low])
}
