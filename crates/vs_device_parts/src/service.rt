//! What the round over all connections does on one of them, as far as one look at it tells.

/// What the round over all connections does on one of them, as far as one look at it tells.
#[derive(Clone, Copy, Default)]
pub enum Service {
    #[default]
    /// Nothing: it neither reads its stream nor owes a packet. It may not read, or has no credit and has asked for some.
    Nothing,
    /// Its stream is read, with so much credit. It owes no packet.
    Read { stream: u64, credit: u32 },
    /// It may owe a packet, or want credit for which it has yet to ask.
    Owed,
}
