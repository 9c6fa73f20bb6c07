//! The limits of driver, device and proxy, and the numbers that the standard and Firecracker fix. Each stands here alone.
#![tactic(auto)]

/// Bytes of buffer space that an end advertises at first (`buf_alloc`, Virtio 1.2, section 5.10.6.3).
pub const BUF_ALLOC: u32 = 65_536;

/// The most bytes of buffer space that an end may advertise.
pub const BUF_ALLOC_MAX: u32 = 262_144;

/// Bytes forwarded, and not told to the peer, at which a CREDIT_UPDATE is owed.
pub const UPDATE_AT: u32 = 32_768;

/// The most packets that one connection owes in a row: RESPONSE, CREDIT_UPDATE, CREDIT_REQUEST and SHUTDOWN.
pub const OWED_MAX: usize = 4;

/// The most bytes that a message of a seqpacket socket has.
pub const MESSAGE_MAX: u32 = 16_208;

/// The host's CID (Virtio 1.2, section 5.10.4).
pub const HOST_CID: u64 = 2;

/// The lowest CID of a guest (Virtio 1.2, section 5.10.4).
pub const GUEST_CID_MIN: u32 = 3;

/// The highest CID of a guest (Virtio 1.2, section 5.10.4).
pub const GUEST_CID_MAX: u32 = 4_294_967_294;

/// The CID that the guest has until the device publishes another.
pub const FIRST_CID: u64 = 3;

/// The first guest port that a driver gives to a connection of its own.
pub const FIRST_PORT: u32 = 1_024;

/// The last guest port that a driver gives.
pub const LAST_PORT: u32 = 1_073_741_823;

/// The first host port that the device assigns to a connection which a client of the host asked for.
pub const ASSIGNED_FIRST: u32 = 1_073_741_824;

/// The last host port that the device assigns.
pub const ASSIGNED_LAST: u32 = 2_147_483_647;

/// The last connection id of a driver.
pub const LAST_ID: u32 = 4_294_967_295;

/// Connections of a driver: those that stand in its table, and those that are over and not closed.
pub const DRIVER_CONNECTIONS: usize = 64;

/// Ports that a driver may listen on.
pub const LISTENERS: usize = 16;

/// Connections that may wait on one port of a driver.
pub const WAITING: usize = 8;

/// Owed replies that a driver has room for.
pub const DRIVER_REPLIES: usize = 128;

/// With so many owed replies a driver takes no further packet; with more it takes no event.
pub const DRIVER_REPLIES_FULL: usize = 64;

/// Connections that the device's table has room for.
pub const DEVICE_CONNECTIONS: usize = 64;

/// Owed replies that the device has room for. With so many it takes no further packet.
pub const DEVICE_REPLIES: usize = 64;

/// Milliseconds after which a REQUEST that isn't answered, or a shutdown that isn't reset, ends a connection of the device.
pub const TIMEOUT: u64 = 2_000;

/// The most bytes of one write to a host's stream.
pub const WRITE_MAX: usize = 4_096;

/// Pairs of ports of connections that are over cleanly, which an end keeps to use again.
pub const CLEAN_PAIRS: usize = 64;

/// Handshakes of the host's clients at once.
pub const HANDSHAKES: usize = 16;

/// The most pages that may be staged on a queue.
pub const STAGED_MAX: u16 = 16;
