// What seven octets say when they are read as a marker.

// The count, whatever else is wrong, and what is right. Kept: neither flag says whether the count is there.
#[derive(Clone, Copy, Debug, PartialEq, Eq)]
pub struct Reading {
    pub count: usize,
    // the first four octets are the sync word
    pub sync_right: bool,
    // the ones of the last three octets are even
    pub parity_right: bool,
}
