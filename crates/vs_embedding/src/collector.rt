//! A host of the monitor's own: a log collector inside the monitor.

use vs_flow::Flow;
use vs_outside::{Accepted, Dialed, HostNet, Started, StreamRead, StreamWrite};

/// A host that listens on one port of the guest's host side and collects what guests write there, line by line or not: here it only
/// counts the bytes. It accepts no clients, and gives the guest nothing back. It never fails.
#[derive(Drop)]
pub struct Collector {
    path: &'static str,
    streams: u64,
    bytes: u64,
}

impl Collector {
    /// A collector at a listening path, which is the base path, `_` and the port: `v.sock_514`.
    pub fn new(path: &'static str) -> Collector {
        Collector {
            path,
            streams: 0,
            bytes: 0,
        }
    }

    /// How many bytes guests wrote so far. The count stands still at its last value.
    pub fn bytes(&self) -> u64 {
        self.bytes
    }
}

impl HostNet for Collector {
    ghost use Rattle.std.specs.Prelude.{None};

    ghost faults = { λ _. 0 };

    ghost contents = { λ _. None };

    fn start(&mut self, _path: &str) -> Started {
        Started::Ready
    }

    fn accept(&mut self) -> Accepted {
        Accepted::None
    }

    fn dial(&mut self, path: &str, _flow: Flow) -> Dialed {
        if path != self.path || self.streams == u64::MAX {
            return Dialed::Refused;
        }
        self.streams += 1;
        Dialed::Stream(self.streams)
    }

    fn label(&mut self, _id: u64, _flow: Flow) {}

    fn read(&mut self, _id: u64, _out: &mut [u8]) -> StreamRead {
        StreamRead::Again
    }

    fn write(&mut self, _id: u64, bytes: &[u8]) -> StreamWrite {
        self.bytes = self.bytes.saturating_add(bytes.len() as u64);
        StreamWrite::Took(bytes.len())
    }

    fn shut_write(&mut self, _id: u64) {}

    fn close(&mut self, _id: u64) {}
}
