//! The bytes of the event record.

use vs_event::{event_bytes, event_of};

#[test]
fn record_to_and_from_bytes(rt: HostRuntime) {
    assert!(rt; event_bytes(0x0102_0304) == [4, 3, 2, 1] && event_of(&[4, 3, 2, 1]) == 0x0102_0304);
}
