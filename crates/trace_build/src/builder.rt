//! How traces grow.

/// How traces grow from the node that begins them.
#[derive(Clone, Copy, PartialEq, Eq, Debug)]
pub enum Builder {
    /// Downward alone.
    Uni,
    /// Upward first, from a loop's header only to the node that enters the loop, then downward.
    Bi,
}
