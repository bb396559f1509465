// The phase of an environment.

/// In which phase an environment is.
#[derive(Clone, Copy)]
pub enum Phase {
    /// It was not ready since its last reset: extensions may register.
    Init,
    /// It can be given an event.
    Ready,
    /// It was ready since its last reset, and is not now.
    Busy,
    /// It was shut down.
    Closing,
}
