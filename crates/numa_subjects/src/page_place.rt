//! Where a page lies.

/// Where a page lies that is there.
#[derive(Clone, Copy)]
pub struct PagePlace {
    /// The node.
    pub node: u8,
    /// The frame of the node that it keeps; `None` if it has none.
    pub frame: Option<u16>,
}
