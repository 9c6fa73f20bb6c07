//! Why a client stops before it is done.

/// Why a client stops before it is done.
#[derive(Clone, Copy, Debug, PartialEq, Eq)]
pub enum Stop {
    /// Nobody listens, or what listens gave no OK line.
    Refused,
    /// Nothing moved for as many steps as the client waits.
    Waited,
    /// A dial, a read or a write of the host failed, and counted a fault.
    Host,
    /// A call of the sink failed, and counted a fault.
    Sink,
}
