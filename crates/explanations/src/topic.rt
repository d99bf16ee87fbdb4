//! What can be explained.

/// What is explained.
#[derive(Clone, Copy, Debug)]
pub enum Topic {
    /// Which pages there are.
    Pages,
    /// The commands, with their words and options.
    Usage,
    /// What a number means, which has a page.
    Number(u8),
}
