//! A gate that a worker passes before it allocates a trace. It has no effect on any result.

/// Where a worker stands before it begins a trace; tests hold workers there.
pub trait Gate: Sync {
    /// Called by the worker that begins this trace.
    fn enter(&self, trace: u32);
}

/// A gate that lets every worker pass at once.
#[derive(Clone, Copy)]
pub struct OpenGate;

impl Gate for OpenGate {
    fn enter(&self, _trace: u32) {}
}
