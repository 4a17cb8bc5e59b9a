// What a receiver reports of a marker that it has read.
use marker::Cause;

// Lock is gained, or the marker expected is hit or missed; of a miss its first cause.
#[derive(Clone, Copy, Debug, PartialEq, Eq)]
pub enum Kind {
    Gained,
    Hit,
    Miss(Cause),
}

// A marker read.
#[derive(Clone, Copy, Debug, PartialEq, Eq)]
pub struct Report {
    pub kind: Kind,
    // the count expected; where lock is gained the one found
    pub count: usize,
    // in how many of its 56 digits the marker differs from the one expected
    pub digits: usize,
    // whether lock fell by this miss
    // Kept: true only of a miss; as a part of its kind it would take a pattern wherever it is asked whether lock fell.
    pub fell: bool,
}
