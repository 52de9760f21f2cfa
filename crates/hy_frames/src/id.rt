// The names of activations, and an activation's standing.

/// The name of a live activation. It names that activation until it ends, and may be given to a later one then.
#[derive(Clone, Copy, Debug, PartialEq, Eq)]
pub struct ActId {
    /// The place at which the activation is kept.
    pub slot: u32,
}

/// An activation's standing: it runs, with a caller to which it gives what it hands out or returns, or it is suspended
/// and has none until it is resumed.
#[derive(Clone, Copy, Debug, PartialEq, Eq)]
pub enum Standing {
    /// It runs. There is no caller only where it was started without one and was never resumed.
    Running(Option<ActId>),
    /// It has handed out an access, and waits until it is resumed.
    Suspended,
}
