//! Closing the host's streams, and connections that leave the table.

ghost use Rattle.std.specs.Prelude.{◌≡◌, ◌&&◌, Some};
ghost use Rattle.vs_flow.specs.{CleanPairs.kept_if, Flow.host_asks, Table.entry_under};
ghost use Rattle.vs_device_parts.specs.{Connections.{cut_off, stream_closed, with_connection}, Playing.{MayClose, RunsOnHost}, State.{DeviceConnection, DeviceEntry}};
ghost use Rattle.vs_device_parts.specs.{State.DeviceState, Streams.{closing, leaving}};

use crate::device::Device;
use vs_device_parts::connection::Connection;
use vs_device_parts::host_calls::close;
use vs_flow::{CleanPairs, Flow, Slot};
use vs_outside::HostNet;

impl Device {
    /// The connection in a slot is over: its stream is closed, where it isn't yet, and RST is owed.
    pub(crate) fn cut_off<H: HostNet>(&mut self, host: &mut H, slot: Slot)
        requires may { (e : DeviceEntry) → entry_under self.old.table slot ≡ Some e → MayClose e.value (H.contents host.old) }
        ensures calls { (e : DeviceEntry) → entry_under self.old.table slot ≡ Some e → RunsOnHost (closing e cut_off self.old) (H.contents host.old) (H.faults host.old) self.new (H.contents host.new) (H.faults host.new) }
        ensures chain { self.new.chain ≡ self.old.chain }
    {
        self.close_stream(host, slot);
        self.slots.cut_off(slot);
    }

    /// Closes the stream of the connection in a slot, where it isn't closed yet.
    pub(crate) fn drop_stream<H: HostNet>(&mut self, host: &mut H, slot: Slot)
        requires may { (e : DeviceEntry) → entry_under self.old.table slot ≡ Some e → MayClose e.value (H.contents host.old) }
        ensures calls { (e : DeviceEntry) → entry_under self.old.table slot ≡ Some e → RunsOnHost (closing e stream_closed self.old) (H.contents host.old) (H.faults host.old) self.new (H.contents host.new) (H.faults host.new) }
        ensures chain { self.new.chain ≡ self.old.chain }
    {
        self.close_stream(host, slot);
        self.slots.stream_closed(slot);
    }

    /// The connection in a slot leaves the table, and its stream is closed, where it isn't yet. Its flow may be used again where it ended
    /// cleanly and a client of the host opened it.
    pub(crate) fn leave<H: HostNet>(&mut self, host: &mut H, slot: Slot, cleanly: bool)
        requires may { (e : DeviceEntry) → entry_under self.old.table slot ≡ Some e → MayClose e.value (H.contents host.old) }
        ensures calls { (e : DeviceEntry) → entry_under self.old.table slot ≡ Some e → (c : DeviceConnection) → c.closed ≡ e.value.closed → c.stream ≡ e.value.stream → RunsOnHost (leaving (cleanly && host_asks e.flow) (record e { value = c }) self.old) (H.contents host.old) (H.faults host.old) self.new (H.contents host.new) (H.faults host.new) }
        ensures chain { self.new.chain ≡ self.old.chain }
    {
        let Some(flow) = self.slots.flow_of(slot) else {
            return;
        };
        self.close_stream(host, slot);
        keep_own(&mut self.clean, cleanly, flow);
        self.slots.leave(slot);
        self.closed = self.closed.saturating_add(1);
    }

    // Closes the stream of the connection in a slot, where it isn't closed yet. The connection doesn't know of it.
    fn close_stream<H: HostNet>(&self, host: &mut H, slot: Slot)
        requires may { (e : DeviceEntry) → entry_under self.now.table slot ≡ Some e → MayClose e.value (H.contents host.old) }
        ensures calls { (d : DeviceEntry) → entry_under self.now.table slot ≡ Some d → (e : DeviceEntry) → e.value.closed ≡ d.value.closed → e.value.stream ≡ d.value.stream → (f : DeviceConnection → DeviceConnection) (s : DeviceState) → RunsOnHost (closing e f s) (H.contents host.old) (H.faults host.old) (with_connection e.slot (f e.value) s) (H.contents host.new) (H.faults host.new) }
    {
        let Some(connection) = self.slots.connection(slot) else {
            return;
        };
        close_unless_closed(host, connection);
    }
}

// Keeps the flow of a connection that a client of the host opened, where it ended cleanly.
fn keep_own(clean: &mut CleanPairs, cleanly: bool, flow: Flow)
    ensures { clean.new ≡ kept_if (cleanly && host_asks flow) flow clean.old }
{
    if cleanly && flow.host_asks() {
        clean.keep(flow);
    }
}

// Closes the stream of a connection, where it isn't closed yet.
fn close_unless_closed<H: HostNet>(host: &mut H, connection: &Connection)
    requires may { MayClose connection.now (H.contents host.old) }
    ensures calls { (e : DeviceEntry) (f : DeviceConnection → DeviceConnection) (s : DeviceState) → e.value.closed ≡ connection.now.closed → e.value.stream ≡ connection.now.stream → RunsOnHost (closing e f s) (H.contents host.old) (H.faults host.old) (with_connection e.slot (f e.value) s) (H.contents host.new) (H.faults host.new) }
{
    if !connection.is_closed() {
        close(host, connection.stream());
    }
}
