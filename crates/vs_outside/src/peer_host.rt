//! A host in memory for a client of the base path: its dials make streams that are prepared, or are refused.
ghost use Rattle.std.specs.Prelude.{◌≡◌, ◌∷◌, [], Some, IfOk, OnOk, OnErr};
ghost use Rattle.vs_outside.specs.HostProgram.{plain, new_host, after_fail, after_fail_start};

use crate::host_net::{Accepted, Dialed, HostNet, Started, StreamRead, StreamWrite};
use crate::mem_host::{MemHost, one_path};
use crate::mem_stream::PreparedStream;
use std::alloc::{AllocError, Global};
use std::marker::Model;
use vs_flow::Flow;

/// A host in memory at whose base path somebody listens, or nobody does.
#[derive(Drop)]
pub struct PeerHost {
    host: MemHost,
}

impl Model for PeerHost {
    ghost use Rattle.vs_outside.specs.HostProgram.{HostMemory};

    ghost Value = { HostMemory };

    ghost view = { λ p. p.host };
}

impl PeerHost {
    /// A dial of the base path makes a stream like that one.
    pub fn new(alloc: Global, base: &str, prepared: PreparedStream) -> Result<PeerHost, AllocError>
        ensures { IfOk result (λ host. host ≡ new_host base.now (base.now ∷ []) prepared) }
    {
        let host = MemHost::prepared(alloc, base, one_path(alloc, base)?, prepared)?;
        Ok(PeerHost { host })
    }

    /// A dial of the base path is refused.
    pub fn refusing(alloc: Global, base: &str) -> Result<PeerHost, AllocError>
        ensures { IfOk result (λ host. host ≡ new_host base.now [] plain) }
    {
        let host = MemHost::new(alloc, base)?;
        Ok(PeerHost { host })
    }

    /// The nth accept, dial, read or write from now fails, counted from 1. Where there is no memory to note it, all is as before.
    pub fn fail(&mut self, n: u64) -> Result<(), AllocError>
        ensures ok { OnOk result (self.new ≡ record self.old { contents = after_fail n self.old.contents }) }
        ensures err { OnErr result (self.new ≡ self.old) }
    {
        self.host.fail(n)
    }

    /// The nth start from now fails, counted from 1. Where there is no memory to note it, all is as before.
    pub fn fail_start(&mut self, n: u64) -> Result<(), AllocError>
        ensures ok { OnOk result (self.new ≡ record self.old { contents = after_fail_start n self.old.contents }) }
        ensures err { OnErr result (self.new ≡ self.old) }
    {
        self.host.fail_start(n)
    }

    /// The host as it stands: its streams, and how many of its calls failed.
    pub fn host(&self) -> &MemHost
        ensures { result.now ≡ self.now }
    {
        &self.host
    }
}

impl HostNet for PeerHost {
    ghost faults = { λ p. p.faults };

    ghost contents = { λ p. Some p.contents };

    fn start(&mut self, path: &str) -> Started {
        self.host.start(path)
    }

    fn accept(&mut self) -> Accepted {
        self.host.accept()
    }

    fn dial(&mut self, path: &str, flow: Flow) -> Dialed {
        self.host.dial(path, flow)
    }

    fn label(&mut self, id: u64, flow: Flow) {
        self.host.label(id, flow);
    }

    fn read(&mut self, id: u64, out: &mut [u8]) -> StreamRead {
        self.host.read(id, out)
    }

    fn write(&mut self, id: u64, bytes: &[u8]) -> StreamWrite {
        self.host.write(id, bytes)
    }

    fn shut_write(&mut self, id: u64) {
        self.host.shut_write(id);
    }

    fn close(&mut self, id: u64) {
        self.host.close(id);
    }
}
