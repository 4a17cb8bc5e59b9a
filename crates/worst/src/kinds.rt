// The two kinds of record that a link notes. Each is compared by its fields, in the order in which they stand.
// Kept: two types of two numbers, so that no row gets into a list of markers, and each number has its own word.

// A row mended.
#[derive(Clone, Copy, Debug, PartialEq, Eq, PartialOrd, Ord)]
pub struct RowRecord {
    // octets altered
    pub octets: usize,
    // the row's number
    pub row: usize,
}

// A marker read.
#[derive(Clone, Copy, Debug, PartialEq, Eq, PartialOrd, Ord)]
pub struct MarkerRecord {
    // digits wrong
    pub digits: usize,
    // the count expected
    pub count: usize,
}
