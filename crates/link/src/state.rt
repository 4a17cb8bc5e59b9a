// How far the ends have come.

// Of the block in the memory: the frames put, and the line octets drawn.
#[derive(Clone, Copy, Default)]
pub struct SenderState {
    pub put: usize,
    pub drawn: usize,
}
