//! The lines `CONNECT PORT` of the host's clients, which are read byte by byte (Firecracker's vsock documentation).

ghost use Rattle.std.specs.{Prelude.{◌≡◌, ◌≤◌, ◌<◌, ◌+◌, ◌*◌, ◌^◌, ◌∷◌, [], Some, true}, Option.{ForSome, is_some}};
ghost use Rattle.vs_outside.specs.Host.{IsOpen};
ghost use Rattle.vs_uds.specs.declared.connect.TheConstants.{CONNECT_MAX};
ghost use Rattle.vs_device_parts.specs.{Calls.CloseStream, Playing.{AllowsOnHost, MayRunOnHost, RunsOnHost}};
ghost use Rattle.vs_limits.specs.declared.TheConstants.{HANDSHAKES};
ghost use Rattle.vs_proxy_parts.specs.{Handshakes.{byte_read, handshake_on, next_after, next_flow, read_byte, read_line, shake_hands}, State.Handshake, Turning.CountsFew};
ghost use Rattle.vs_proxy_parts.specs.Turning.{connecting, read_lines, turning_of};
ghost use Rattle.vs_outside.specs.declared.host_net.StreamRead.TheVariants as read;

use crate::proxy::Proxy;
use vs_flow::Flow;
use vs_limits::ASSIGNED_LAST;
use vs_outside::{HostNet, StreamRead};
use vs_proxy_parts::host_calls::{close, read_byte};
use vs_proxy_parts::tally::Tally;
use vs_uds::{CONNECT_MAX, Step};

impl Proxy {
    /// Accepts a client, where a place is free, and reads the lines of all handshakes, in the order in which they were accepted.
    pub(crate) fn shake_hands<H: HostNet>(&mut self, host: &mut H, tally: &mut Tally)
        requires few { tally.old.hands ≤ HANDSHAKES }
        requires none { tally.old.read ≡ 0 }
        requires may { MayRunOnHost (shake_hands (turning_of self.old tally.old)) (H.contents host.old) (H.faults host.old) }
        ensures read { tally.new.read ≤ CONNECT_MAX * HANDSHAKES }
        ensures others { tally.new ≡ record tally.old { read = tally.new.read; hands = tally.new.hands } }
        ensures opened { CountsFew (CONNECT_MAX * HANDSHAKES) 0 self.old.device self.new.device }
        ensures chain { self.new.device.chain ≡ self.old.device.chain }
        ensures calls { RunsOnHost (shake_hands (turning_of self.old tally.old)) (H.contents host.old) (H.faults host.old) (turning_of self.new tally.new) (H.contents host.new) (H.faults host.new) }
    {
        self.accept_one(host, tally);
        self.read_lines(host, tally);
    }

    // Reads the lines of all handshakes, in the order in which they were accepted.
    fn read_lines<H: HostNet>(&mut self, host: &mut H, tally: &mut Tally)
        requires few { tally.old.hands ≤ HANDSHAKES + 1 }
        requires none { tally.old.read ≡ 0 }
        requires may { MayRunOnHost (read_lines (turning_of self.old tally.old)) (H.contents host.old) (H.faults host.old) }
        ensures read { tally.new.read ≤ CONNECT_MAX * HANDSHAKES }
        ensures others { tally.new ≡ record tally.old { read = tally.new.read; hands = tally.new.hands } }
        ensures opened { CountsFew (CONNECT_MAX * HANDSHAKES) 0 self.old.device self.new.device }
        ensures chain { self.new.device.chain ≡ self.old.device.chain }
        ensures calls { RunsOnHost (read_lines (turning_of self.old tally.old)) (H.contents host.old) (H.faults host.old) (turning_of self.new tally.new) (H.contents host.new) (H.faults host.new) }
    {
        let streams = self.handshakes.streams();
        for stream in streams.as_slice() {
            self.read_line(host, *stream, tally);
        }
    }

    // Reads the line of the handshake on a stream, as far as it came.
    fn read_line<H: HostNet>(&mut self, host: &mut H, stream: u64, tally: &mut Tally)
        requires few { tally.old.hands < 2 ^ 16 }
        requires few_read { tally.old.read < 2 ^ 16 }
        requires may { MayRunOnHost (read_line stream (turning_of self.old tally.old)) (H.contents host.old) (H.faults host.old) }
        ensures count { tally.new.hands ≤ tally.old.hands + CONNECT_MAX }
        ensures read { tally.new.read ≤ tally.old.read + CONNECT_MAX }
        ensures others { tally.new ≡ record tally.old { read = tally.new.read; hands = tally.new.hands } }
        ensures opened { CountsFew CONNECT_MAX 0 self.old.device self.new.device }
        ensures chain { self.new.device.chain ≡ self.old.device.chain }
        ensures calls { RunsOnHost (read_line stream (turning_of self.old tally.old)) (H.contents host.old) (H.faults host.old) (turning_of self.new tally.new) (H.contents host.new) (H.faults host.new) }
    {
        for _ in 0..CONNECT_MAX {
            if !self.read_byte(host, stream, tally) {
                return;
            }
        }
    }

    /// Reads the next byte of the line of the handshake on a stream, and tells whether more of the line is to be read.
    pub(crate) fn read_byte<H: HostNet>(
        &mut self,
        host: &mut H,
        stream: u64,
        tally: &mut Tally,
    ) -> bool
        requires few { tally.old.hands < 2 ^ 18 }
        requires few_read { tally.old.read < 2 ^ 18 }
        requires may { MayRunOnHost (read_byte stream (turning_of self.old tally.old)) (H.contents host.old) (H.faults host.old) }
        ensures count { tally.new.hands ≤ tally.old.hands + 1 }
        ensures read { tally.new.read ≤ tally.old.read + 1 }
        ensures others { tally.new ≡ record tally.old { read = tally.new.read; hands = tally.new.hands } }
        ensures opened { CountsFew 1 0 self.old.device self.new.device }
        ensures chain { self.new.device.chain ≡ self.old.device.chain }
        ensures calls { RunsOnHost (read_byte stream (turning_of self.old tally.old)) (H.contents host.old) (H.faults host.old) (turning_of self.new tally.new, result) (H.contents host.new) (H.faults host.new) }
    {
        if !self.has_handshake(stream) {
            return false;
        }
        let (answer, byte) = read_byte(host, stream);
        match answer {
            StreamRead::Got(_n) => self.take_byte(host, stream, byte, tally),
            StreamRead::Again => false,
            StreamRead::End => {
                self.drop_handshake(host, stream, tally);
                false
            }
            StreamRead::Failed => {
                self.device.count_fault();
                self.drop_handshake(host, stream, tally);
                false
            }
        }
    }

    // Whether a handshake is on a stream.
    fn has_handshake(&self, stream: u64) -> bool
        ensures { result ≡ is_some (handshake_on stream self.now) }
    {
        self.handshakes.accepted_at(stream).is_some()
    }

    // The line of the handshake on a stream got its next byte. Tells whether more of the line is to be read.
    fn take_byte<H: HostNet>(
        &mut self,
        host: &mut H,
        stream: u64,
        byte: u8,
        tally: &mut Tally,
    ) -> bool
        requires few { tally.old.hands < 2 ^ 18 }
        requires few_read { tally.old.read < 2 ^ 18 }
        requires there { (h : Handshake) × (handshake_on stream self.old ≡ Some h) }
        requires may { (h : Handshake) → handshake_on stream self.old ≡ Some h → MayRunOnHost (byte_read h (read.Got 1) (byte ∷ []) (turning_of self.old tally.old)) (H.contents host.old) (H.faults host.old) }
        ensures count { tally.new.hands ≤ tally.old.hands + 1 }
        ensures others { tally.new ≡ record tally.old { read = tally.old.read + 1; hands = tally.new.hands } }
        ensures opened { CountsFew 1 0 self.old.device self.new.device }
        ensures chain { self.new.device.chain ≡ self.old.device.chain }
        ensures calls { (h : Handshake) → handshake_on stream self.old ≡ Some h → RunsOnHost (byte_read h (read.Got 1) (byte ∷ []) (turning_of self.old tally.old)) (H.contents host.old) (H.faults host.old) (turning_of self.new tally.new, result) (H.contents host.new) (H.faults host.new) }
    {
        tally.read += 1;
        match self.handshakes.feed(stream, byte) {
            Step::More => true,
            Step::Bad => {
                close_client(host, stream, tally);
                false
            }
            Step::Port(port) => {
                self.connect(host, stream, port, tally);
                false
            }
        }
    }

    // A client asked for a port of the guest, and its handshake is over: its connection is opened on the next flow, where there is one; else
    // its stream is closed.
    fn connect<H: HostNet>(&mut self, host: &mut H, stream: u64, port: u32, tally: &mut Tally)
        requires few { tally.old.hands < 2 ^ 20 }
        requires may { MayRunOnHost (connecting stream port (turning_of self.old tally.old)) (H.contents host.old) (H.faults host.old) }
        ensures count { tally.new.hands ≤ tally.old.hands + 1 }
        ensures others { tally.new ≡ record tally.old { hands = tally.new.hands } }
        ensures opened { CountsFew 1 0 self.old.device self.new.device }
        ensures chain { self.new.device.chain ≡ self.old.device.chain }
        ensures calls { RunsOnHost (connecting stream port (turning_of self.old tally.old)) (H.contents host.old) (H.faults host.old) (turning_of self.new tally.new) (H.contents host.new) (H.faults host.new) }
    {
        let Some(flow) = self.next_flow(port) else {
            close_client(host, stream, tally);
            return;
        };
        let _slot = self.device.open(host, flow, stream);
        self.next_port = next_after(self.next_port);
    }

    // The flow of the next connection to a guest port: `None` comes where the table is full, and where the last host port was given and no
    // flow from that port may be used again.
    fn next_flow(&self, guest: u32) -> Option<Flow>
        ensures { result ≡ next_flow guest self.now.next_port self.now.device }
    {
        if !self.device.has_place() {
            return None;
        }
        if self.next_port <= ASSIGNED_LAST {
            return Some(Flow::to_host(guest, self.next_port));
        }
        self.device.oldest_from(guest)
    }
}

// The next host port, once it was given.
fn next_after(port: u32) -> u32
    ensures { result ≡ next_after port }
{
    if port <= ASSIGNED_LAST {
        return port + 1;
    }
    port
}

// Closes the stream of a client whose handshake is over.
fn close_client<H: HostNet>(host: &mut H, stream: u64, tally: &mut Tally)
    requires few { tally.old.hands < 2 ^ 20 }
    requires open { ForSome (H.contents host.old) (IsOpen stream) }
    ensures count { tally.new ≡ record tally.old { hands = tally.old.hands + 1 } }
    ensures calls { AllowsOnHost (CloseStream stream) tt (H.contents host.old) (H.faults host.old) (H.contents host.new) (H.faults host.new) }
{
    close(host, stream);
    tally.hands += 1;
}
