/// What is called between a look and its solution. A call returns; nothing else is claimed of it.
pub trait Gate: Sync {
    /// The session is about to solve its work.
    fn between(&self, session: u32);
}

/// The gate that does nothing.
#[derive(Clone, Copy, Drop)]
pub struct Through;

impl Gate for Through {
    fn between(&self, _session: u32) {}
}
