//! Touches and addresses, also as they are asked for, where scripts say which are meant; and free
//! pages.

/// A task that touches pages on a CPU of node `cpu`.
#[derive(Clone, Copy)]
pub struct Touch {
    pub task: u32,
    pub cpu: u32,
}

/// The nodes on whose CPUs pages are touched.
#[derive(Clone, Copy)]
pub enum CpuAsked {
    /// This one.
    Node(u32),
    /// Each that has CPUs, one after the other.
    Each,
}

/// A task that touches pages on CPUs.
#[derive(Clone, Copy)]
pub struct TouchAsked {
    /// The task; `None` is the one that scripts name.
    pub task: Option<u32>,
    pub cpu: CpuAsked,
}

/// An address in bytes.
#[derive(Clone, Copy)]
pub struct AddressAsked {
    /// The address as it is read first.
    pub value: u64,
    /// What it is by hexadecimal digits, if those of `value` were decimal and may be either.
    pub hexadecimal: Option<u64>,
}

/// A number of free pages of a node.
#[derive(Clone, Copy)]
pub struct FreePages {
    pub node: u8,
    pub pages: u64,
}
