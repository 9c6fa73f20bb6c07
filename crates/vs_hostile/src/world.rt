//! What a hostile guest's script runs on: the guest's memory, the device with its proxy, a host in memory and a clock, line by line.

ghost use Rattle.std.specs.Prelude.{◌≡◌, IfOk, OnOk, length, string_bytes};
ghost use Rattle.vs_device_parts.specs.{State.counters_of, Turns.table_shown};
ghost use Rattle.vs_script.specs.Hostile.{hostile_view};
ghost use Rattle.vs_hostile.specs.{Ready.{IsReady, Steps}, Run.{beginning, first_set_up, rings_in, second_set_up}, Rings.rings_of, World.guest_view};

use crate::lines::rings_line;
use crate::rings::make_rings;
use crate::whole::WholeSide;
use laws_proxy::laws::law_of_order;
use std::alloc::{AllocError, Global};
use std::marker::Model;
use vs_device::Counters;
use vs_layout::Span;
use vs_limits::FIRST_CID;
use vs_outside::{MemHost, MemStream, StepClock};
use vs_proxy::Proxy;
use vs_report::host_lines::push_ok;
use vs_ring_port::Failure;
use vs_script::HostileLine;

/// The base path of the host's sockets.
const BASE_PATH: &str = "v.sock";

/// The guest's memory as far as the script has set it up.
#[derive(Drop)]
pub enum Guest {
    /// Nothing.
    Nothing,
    /// Where it lies.
    Memory(Span),
    /// The rings in it.
    Rings(WholeSide),
}

/// The guest's memory, the device with its proxy, the host and the moment.
#[derive(Drop)]
pub struct HostileWorld {
    guest: Guest,
    proxy: Proxy,
    host: MemHost,
    clock: StepClock,
}

impl Model for HostileWorld {
    ghost use Rattle.vs_hostile.specs.{Run.HostileState, World.guest_view};

    ghost Value = { HostileState };

    ghost view = { λ w. record { guest = guest_view w.guest; proxy = w.proxy; host = w.host.contents; now = w.clock } };
}

impl HostileWorld {
    /// A device just made for the guest with CID 3, at moment 0, beside a host at whose base path `v.sock` clients may connect. The only
    /// error is want of memory.
    pub fn new(alloc: Global) -> Result<HostileWorld, AllocError>
        ensures beginning { IfOk result (λ world. world ≡ beginning) }
        ensures ready { IfOk result IsReady }
    {
        law_of_order();
        let proxy = Proxy::new(alloc, FIRST_CID, BASE_PATH)?;
        let host = MemHost::new(alloc, BASE_PATH)?;
        Ok(HostileWorld {
            guest: Guest::Nothing,
            proxy,
            host,
            clock: StepClock::new(),
        })
    }

    /// Runs a line, and appends what it prints. The only error is want of memory, also of the host's; then no further line may be run.
    pub fn line(&mut self, line: &HostileLine, text: &mut String) -> Result<(), AllocError>
        requires { IsReady self.old }
        ensures { OnOk result (Steps (hostile_view line.now) self.old self.new (string_bytes text.old) (string_bytes text.new)) }
    {
        match &mut self.guest {
            Guest::Nothing => {
                self.guest = first_set_up(line);
                push_ok(text)
            }
            Guest::Memory(memory) => {
                self.guest = second_set_up(*text.allocator(), line, *memory)?;
                push_ok(text)
            }
            Guest::Rings(ring) => rings_line(
                ring,
                &mut self.proxy,
                &mut self.host,
                &mut self.clock,
                line,
                text,
            ),
        }
    }

    /// The failure of the device's ring, where it failed.
    pub fn failure(&self) -> Option<Failure>
        ensures { result ≡ self.now.proxy.device.failed }
    {
        self.proxy.failure()
    }

    /// How many entries the device's table has.
    pub fn entries(&self) -> usize
        ensures { result ≡ length (table_shown self.now.proxy.device) }
    {
        self.proxy.table().count()
    }

    /// What the device counted.
    pub fn counters(&self) -> Counters
        ensures { result ≡ counters_of self.now.proxy.device }
    {
        self.proxy.counters()
    }

    /// The host's streams.
    pub fn streams(&self) -> &[MemStream]
        ensures { result.now ≡ self.now.host.streams }
    {
        self.host.streams()
    }
}

// What the first line sets up.
fn first_set_up(line: &HostileLine) -> Guest
    ensures { guest_view result ≡ first_set_up (hostile_view line.now) }
{
    match line {
        HostileLine::Memory { memory } => Guest::Memory(*memory),
        _ => Guest::Nothing,
    }
}

// What the second line sets up. The only error is want of memory.
fn second_set_up(alloc: Global, line: &HostileLine, memory: Span) -> Result<Guest, AllocError>
    ensures { IfOk result (λ guest. guest_view guest ≡ second_set_up (hostile_view line.now) memory) }
{
    match line {
        HostileLine::Rings { n } => rings_in(alloc, memory, *n),
        _ => Ok(Guest::Memory(memory)),
    }
}

// The rings in the memory, where they fit. The only error is want of memory.
fn rings_in(alloc: Global, memory: Span, n: u16) -> Result<Guest, AllocError>
    ensures { IfOk result (λ guest. guest_view guest ≡ rings_in memory (rings_of memory n)) }
{
    match make_rings(alloc, memory, n)? {
        Some(ring) => Ok(Guest::Rings(ring)),
        None => Ok(Guest::Memory(memory)),
    }
}
