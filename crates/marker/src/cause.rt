// Why seven octets are not the marker expected.

// The first of these that is wrong, in this order.
#[derive(Clone, Copy, Debug, PartialEq, Eq)]
pub enum Cause {
    SyncWord,
    Parity,
    Count,
}
