//! A play: a guest's driver and the device with its proxy on one thread, over rings of any kind, with a host in memory.

ghost use Rattle.std.specs.Prelude.{◌≡◌, ◌≤◌, ℕ, IfOk, OnOk, string_bytes};
ghost use Rattle.vs_limits.specs.declared.TheConstants.{FIRST_PORT, LAST_PORT};
ghost use Rattle.vs_ring_list.specs.Ends.{empty_ends};
ghost use Rattle.vs_script.specs.Play as script;
ghost use Rattle.vs_script.specs.{Outside.outside_view, Play.play_view};
ghost use Rattle.vs_play.specs.{Answer.totals_of, Ready.IsOpened, Ready.IsPlayable, Ready.IsReady, Ready.Plays, Ready.world_in};

use crate::device::{self, reset, turn};
use crate::guest::{self, guest_line};
use std::alloc::{AllocError, Global};
use std::marker::Model;
use vs_both_ends::BothEnds;
use vs_driver::Driver;
use vs_outside::{Clock, MemHost, MemStream, StepClock};
use vs_proxy::Proxy;
use vs_report::device_lines::push_growth;
use vs_report::giving::Totals;
use vs_report::host_lines::{client, host_line, push_ok};
use vs_script::{OutsideLine, PlayLine};

/// The world of a play, and the moment.
#[derive(Drop)]
pub struct Play<R: BothEnds> {
    rings: R,
    driver: Driver,
    proxy: Proxy,
    host: MemHost,
    clock: StepClock,
    // What a line receives goes by way of it.
    buffer: Vec<u8>,
}

impl<R: BothEnds> Model for Play<R> {
    ghost use Rattle.vs_play.specs.Ready.{PlayState};

    ghost Value = { PlayState };

    ghost view = { λ p. record { driver = p.driver; proxy = p.proxy; rings = R.ends p.rings; host = p.host.contents; moment = p.clock } };
}

impl<R: BothEnds + Drop> Play<R> {
    /// A play just begun over empty rings, with the guest's first port and a host at which nobody listens. The only error is want of memory.
    pub fn new(alloc: Global, rings: R, first: u32) -> Result<Play<R>, AllocError>
        requires empty { (n : ℕ) × (R.ends rings ≡ empty_ends n) }
        requires first { (FIRST_PORT ≤ first) × (first ≤ LAST_PORT) }
        ensures { IfOk result (IsOpened (R.ends rings).lists.size first) }
    {
        let mut rings = rings;
        let driver = guest::new(alloc, &mut rings, first)?;
        let proxy = device::new(alloc)?;
        let host = device::new_host(alloc)?;
        Ok(Play::at_start(alloc, rings, driver, proxy, host))
    }
}

impl<R: BothEnds> Play<R> {
    // The play of these parts, at the moment 0.
    fn at_start(alloc: Global, rings: R, driver: Driver, proxy: Proxy, host: MemHost) -> Play<R>
        ensures { result ≡ record { driver = driver; proxy = proxy; rings = R.ends rings; host = host.contents; moment = 0 } }
    {
        let clock = StepClock::new();
        Play {
            rings,
            driver,
            proxy,
            host,
            clock,
            buffer: Vec::new(alloc),
        }
    }

    /// What the report counts.
    pub fn totals(&self) -> Totals
        ensures { result ≡ totals_of (world_in self.now).world }
    {
        Totals {
            guest_open: guest::guest_entries(&self.driver),
            device_open: device::device_entries(&self.proxy),
            counters: self.proxy.counters(),
            broken: self.driver.broken(),
        }
    }

    /// The host's streams, by rising id.
    pub fn streams(&self) -> &[MemStream]
        ensures { result.now ≡ self.now.host.streams }
    {
        self.host.streams()
    }

    /// Plays a line: does what it says, and appends what it prints. The only error is want of memory, and then the play may not go on.
    pub fn line(&mut self, line: &PlayLine, text: &mut String) -> Result<(), AllocError>
        requires ready { IsReady self.old }
        requires playable { IsPlayable (play_view line.now) }
        ensures { OnOk result (Plays (play_view line.now) self.old self.new (string_bytes text.old) (string_bytes text.new)) }
    {
        match line {
            PlayLine::Outside(line) => self.outside_line(line, text),
            _ => guest_line(
                &mut self.driver,
                &mut self.rings,
                line,
                &mut self.buffer,
                text,
            ),
        }
    }

    // A line on the device, the moment or the host.
    fn outside_line(&mut self, line: &OutsideLine, text: &mut String) -> Result<(), AllocError>
        requires ready { IsReady self.old }
        requires playable { IsPlayable (script.Around (outside_view line.now)) }
        ensures { OnOk result (Plays (script.Around (outside_view line.now)) self.old self.new (string_bytes text.old) (string_bytes text.new)) }
    {
        match line {
            OutsideLine::Turn => {
                let now = self.clock.now();
                turn(&mut self.proxy, &mut self.rings, &mut self.host, now, text)
            }
            OutsideLine::Reset { cid } => reset(
                &mut self.proxy,
                &mut self.rings,
                &mut self.host,
                *cid,
                text,
            ),
            OutsideLine::Tick { ms } => {
                self.clock.tick(*ms as u64);
                push_ok(text)
            }
            OutsideLine::Grow { stream, alloc } => {
                let answer = self.proxy.grow_stream(&self.host, *stream as u64, *alloc);
                push_growth(text, answer)
            }
            OutsideLine::Client => client(&mut self.host, text),
            OutsideLine::Host(line) => host_line(&mut self.host, line, text),
        }
    }
}
