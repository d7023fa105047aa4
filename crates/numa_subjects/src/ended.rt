//! On which lines of scripts an answer is based, and by which rules they are played.

/// The lines of the scripts on which an answer is based.
#[derive(Clone, Copy, Debug, PartialEq, Eq)]
pub enum Ended {
    /// All of them.
    Clean,
    /// The accepted ones: others were malformed, refused, or not judged.
    Faulty,
}

/// Whether lines are also played by the rules other than those that apply.
#[derive(Clone, Copy, PartialEq, Eq)]
pub enum Twin {
    /// They aren't.
    None,
    /// They are.
    Always,
    /// They are if the documents' rules apply only since no line chooses any.
    UnlessChosen,
}
