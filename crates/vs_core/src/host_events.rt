//! What the programs of the host do in the world, one event at a time. The only error is want of memory, and then all is as before.

ghost use Rattle.std.specs.Prelude.{OnOk};
ghost use Rattle.laws_world.specs.Events.{ClientConnects, HostCloses, HostEnds, HostFails, HostListens, HostTakes, HostUnlistens, HostWrites};
ghost use Rattle.vs_core.specs.Ready.{Happens, IsReady};

use crate::world::World;
use std::alloc::AllocError;
use vs_header::Kind;

impl World {
    /// A program listens on a port.
    pub(crate) fn host_listens(&mut self, port: u32) -> Result<(), AllocError>
        requires ready { IsReady self.old }
        ensures { OnOk result (Happens (HostListens port) self.old self.new) }
    {
        self.host.listen(port, Kind::Stream)
    }

    /// It listens there no more.
    pub(crate) fn host_unlistens(&mut self, port: u32) -> Result<(), AllocError>
        requires ready { IsReady self.old }
        ensures { OnOk result (Happens (HostUnlistens port) self.old self.new) }
    {
        self.host.unlisten(port, Kind::Stream)
    }

    /// A client connects to the base path.
    pub(crate) fn client_connects(&mut self) -> Result<(), AllocError>
        requires ready { IsReady self.old }
        ensures { OnOk result (Happens ClientConnects self.old self.new) }
    {
        self.host.client()?;
        Ok(())
    }

    /// A program writes bytes to a stream.
    pub(crate) fn host_writes(&mut self, stream: u64, bytes: &[u8]) -> Result<(), AllocError>
        requires ready { IsReady self.old }
        ensures { OnOk result (Happens (HostWrites stream bytes.now) self.old self.new) }
    {
        self.host.host_write(stream, bytes)?;
        Ok(())
    }

    /// It takes so many more bytes of a stream.
    pub(crate) fn host_takes(&mut self, stream: u64, n: usize)
        requires ready { IsReady self.old }
        ensures { Happens (HostTakes stream n) self.old self.new }
    {
        let _found = self.host.allow(stream, n);
    }

    /// It ends what it writes to a stream.
    pub(crate) fn host_ends(&mut self, stream: u64)
        requires ready { IsReady self.old }
        ensures { Happens (HostEnds stream) self.old self.new }
    {
        let _found = self.host.end(stream);
    }

    /// It closes a stream.
    pub(crate) fn host_closes(&mut self, stream: u64)
        requires ready { IsReady self.old }
        ensures { Happens (HostCloses stream) self.old self.new }
    {
        let _found = self.host.closed(stream);
    }

    /// A call on the host is to fail, so many calls from now.
    pub(crate) fn host_fails(&mut self, n: u64) -> Result<(), AllocError>
        requires ready { IsReady self.old }
        ensures { OnOk result (Happens (HostFails n) self.old self.new) }
    {
        self.host.fail(n)
    }
}
