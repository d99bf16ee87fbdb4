//! How it is told that a rule is broken.

/// How it is told that a module breaks a rule.
#[derive(Clone, Copy, Debug)]
pub enum Format {
    /// By the line for people alone, on the error output.
    Text,
    /// By a line of JSON on the output, too.
    Json,
}
