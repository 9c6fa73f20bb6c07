//! The registers, and the calls of a device's monitor on them.
ghost use Rattle.std.specs.{Prelude.{◌≡◌, ◌<◌, ◌≤◌, true, IfSome, IsTrue}, Int.is_power_of_two};
ghost use Rattle.vs_mmio.specs.Registers.{Failed, IsInOrder, SetCid, Used, Write, after, after_write, features_of, fresh, may_run_of, queue_at, queue_in, read_of, shown, wrote_of};
ghost use Rattle.vs_mmio.specs.{Queue.is_placed, declared.regs.Wrote.TheVariants.Renew};

use crate::queue::{Limits, QueueRegs, READY_AT, ReadyQueue, Virtqueue, with_half};
use crate::status::{CONFIGURATION_CHANGE, OFFERED, Status, USED_BUFFER, value_if};
use std::marker::Model;

/// What `MagicValue` reads: `virt`, little-endian.
pub const MAGIC: u32 = 0x7472_6976;
/// What `Version` reads: devices of Virtio 1.
pub const VERSION: u32 = 2;
/// What `DeviceId` reads: a socket device (Virtio 1.2, section 5.10.1).
pub const DEVICE_ID: u32 = 19;
/// What `VendorId` reads.
pub const VENDOR_ID: u32 = 0;
/// Number of queues.
pub const QUEUES: u32 = 3;
/// Offset of `Status`.
pub const STATUS_AT: u64 = 0x070;
/// Offset of the configuration, which is the guest's CID (Virtio 1.2, section 5.10.4).
pub const CONFIG_AT: u64 = 0x100;
/// Bytes of the configuration.
pub const CONFIG_LEN: u64 = 8;

/// What a write asks of the device's monitor.
#[derive(Clone, Copy, Debug, PartialEq, Eq)]
pub enum Wrote {
    /// Nothing more.
    Done,
    /// The driver reset the device: device and rings are to be made anew.
    Renew,
}

/// What the registers hold: the guest's CID, what the driver wrote (its features, and last to `QueueNotify`), the bits of the
/// interrupt status, and the configuration's generation, modulo 2^32.
#[derive(Clone, Copy, Default)]
pub struct RegisterState {
    pub cid: u64,
    pub limits: Limits,
    pub device_features_sel: u32,
    pub driver_features_sel: u32,
    pub queue_sel: u32,
    pub features: u64,
    pub status: Status,
    pub interrupt: u32,
    pub generation: u32,
    pub notified: u32,
    pub rx: QueueRegs,
    pub tx: QueueRegs,
    pub event: QueueRegs,
}

impl RegisterState {
    // Registers to which the driver wrote nothing.
    fn new(cid: u64, limits: Limits) -> RegisterState
        ensures { result ≡ fresh cid limits }
    {
        let mut state = RegisterState::default();
        state.cid = cid;
        state.limits = limits;
        state
    }

    // A queue by its number. One that there isn't has nothing written.
    fn queue(&self, number: u32) -> QueueRegs
        ensures { result ≡ queue_at number self.now }
    {
        match number {
            0 => self.rx,
            1 => self.tx,
            2 => self.event,
            _ => QueueRegs::default(),
        }
    }

    // Writes a register. The driver's features stay once they are negotiated.
    fn write(&mut self, offset: u64, value: u32)
        ensures { self.new ≡ after_write offset value self.old }
    {
        let (limits, negotiated) = (self.limits, self.status.features_ok);
        if negotiated && (offset == 0x020 || offset == 0x024) {
            return;
        }
        match offset {
            0x014 => self.device_features_sel = value,
            0x020 => self.features = with_half(self.features, self.driver_features_sel, value),
            0x024 => self.driver_features_sel = value,
            0x030 => self.queue_sel = value,
            0x050 => self.notified = value,
            0x064 => self.interrupt &= !value,
            STATUS_AT => match value {
                0 => *self = RegisterState::new(self.cid, limits),
                _ => self.status.add(value, self.features),
            },
            _ => match self.queue_sel {
                0 => self.rx.write(offset, value, limits, negotiated),
                1 => self.tx.write(offset, value, limits, negotiated),
                2 => self.event.write(offset, value, limits, negotiated),
                _ => {}
            },
        }
    }
}

/// The virtio-mmio registers of one socket device. Each call is total, and takes no memory.
#[derive(Drop)]
pub struct Regs {
    state: RegisterState,
}

impl Model for Regs {
    ghost use Rattle.vs_mmio.specs.{Registers.IsInOrder, declared.regs.RegisterState.RegisterState};

    ghost Value = { RegisterState };

    ghost view = { λ regs. regs.state };

    ghost invariant = { λ regs. IsInOrder regs.state };
}

impl Regs {
    /// Registers as they are at first: of a device whose guest has the CID `cid`, with queues of `max` entries at most, which lie
    /// in the `size` bytes from the guest's address `base` on.
    pub fn new(cid: u64, max: u16, base: u64, size: u64) -> Regs
        ensures { result ≡ fresh cid (record { max = max; base = base; size = size }) }
    {
        let limits = Limits { max, base, size };
        let state = RegisterState::new(cid, limits);
        Regs { state }
    }

    /// What the driver reads: a register at its offset, `width` 4; 1, 2 or 4 bytes of the configuration, aligned. 0 at every other
    /// offset or width, and of registers that the driver only writes.
    pub fn read(&self, offset: u64, width: u32) -> u32
        ensures { result ≡ read_of self.now offset width }
    {
        let state = self.state;
        let aligned = (width == 1 || width == 2 || width == 4) && offset % width as u64 == 0;
        if aligned && offset >= CONFIG_AT && offset < CONFIG_AT + CONFIG_LEN {
            return ((state.cid >> (8 * (offset - CONFIG_AT))) % 2u64.pow(8 * width)) as u32;
        }
        if width != 4 {
            return 0;
        }
        match offset {
            0x000 => MAGIC,
            0x004 => VERSION,
            0x008 => DEVICE_ID,
            0x00c => VENDOR_ID,
            0x010 => match state.device_features_sel {
                0 => (OFFERED % 0x1_0000_0000) as u32,
                1 => (OFFERED >> 32) as u32,
                _ => 0,
            },
            0x034 => value_if(state.queue_sel < QUEUES, u32::from(state.limits.max)),
            READY_AT => state.queue(state.queue_sel).ready as u32,
            0x060 => state.interrupt,
            STATUS_AT => state.status.number(),
            0x0fc => state.generation,
            _ => 0,
        }
    }

    #[tactic(auto, using(crate::proofs::Steps::write_step))]
    /// The driver writes four bytes. Where the register may not be written, or there is none, nothing changes. At `Renew`, which is
    /// the answer to 0 in the status alone, the registers are as at first, with the CID and the limits of before.
    pub fn write(&mut self, offset: u64, value: u32) -> Wrote
        ensures step { self.new ≡ after (Write offset value) self.old }
        ensures answer { result ≡ wrote_of offset value }
        ensures renewed { result ≡ Renew → self.new ≡ fresh self.old.cid self.old.limits }
    {
        self.state.write(offset, value);
        if offset == STATUS_AT && value == 0 {
            Wrote::Renew
        } else {
            Wrote::Done
        }
    }

    /// The guest's CID has changed: the configuration has its next generation, and the driver is interrupted for it.
    pub fn set_cid(&mut self, cid: u64)
        ensures { self.new ≡ after (SetCid cid) self.old }
    {
        self.state.cid = cid;
        self.state.generation = self.state.generation.wrapping_add(1);
        self.state.interrupt |= CONFIGURATION_CHANGE;
    }

    /// The device has failed: it needs a reset, and the driver is interrupted once for that.
    pub fn failed(&mut self)
        ensures { self.new ≡ after Failed self.old }
    {
        if !self.state.status.needs_reset {
            self.state.status.needs_reset = true;
            self.state.interrupt |= CONFIGURATION_CHANGE;
        }
    }

    /// The device has stored a used index: the driver is interrupted for it.
    pub fn used(&mut self)
        ensures { self.new ≡ after Used self.old }
    {
        self.state.interrupt |= USED_BUFFER;
    }

    /// A queue that is ready, and `None` where it isn't.
    pub fn queue(&self, queue: Virtqueue) -> Option<ReadyQueue>
        ensures exact { result ≡ shown (queue_in self.now queue) }
        ensures negotiated { IfSome result (λ _. self.now.status.features_ok ≡ true) }
        ensures sized { IfSome result (λ q. IsTrue (is_power_of_two q.size) × (q.size ≤ self.now.limits.max)) }
        ensures placed { IfSome result (λ q. IsTrue (is_placed self.now.limits q)) }
    {
        let regs = self.state.queue(queue as u32);
        regs.ready.then_some(regs.place)
    }

    /// Whether the device may run: the driver is set up, and all three queues are ready.
    pub fn may_run(&self) -> bool
        ensures exact { result ≡ may_run_of self.now }
        ensures negotiated { result ≡ true → self.now.status.features_ok ≡ true }
    {
        let state = self.state;
        state.status.driver_ok && state.rx.ready && state.tx.ready && state.event.ready
    }

    /// The feature bits that driver and device agreed on: none before `FEATURES_OK`.
    pub fn features(&self) -> u64
        ensures { result ≡ features_of self.now }
    {
        if self.state.status.features_ok {
            self.state.features
        } else {
            0
        }
    }

    /// What the driver wrote last to `QueueNotify`: the number of a queue.
    pub fn notified(&self) -> u32
        ensures { result ≡ self.now.notified }
    {
        self.state.notified
    }
}
