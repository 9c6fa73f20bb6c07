//! What the driver writes of one queue, and where its three areas may lie (Virtio 1.2, sections 2.7 and 4.2.2).
ghost use Rattle.std.specs.Prelude.{◌≡◌, ◌<◌};
ghost use Rattle.vs_mmio.specs.Queue.{is_apart, is_fit, is_placed, queue_after, with_half, written};

/// Offset of `QueueReady`.
pub const READY_AT: u64 = 0x044;

/// A queue of the socket device (Virtio 1.2, section 5.10.2).
#[derive(Clone, Copy)]
pub enum Virtqueue {
    Rx,
    Tx,
    Event,
}

/// What a queue has to keep to: the largest size, and the guest's memory, of `size` bytes from the address `base` on.
#[derive(Clone, Copy, Default)]
pub struct Limits {
    pub max: u16,
    pub base: u64,
    pub size: u64,
}

/// A queue's entries, and the addresses of its descriptors, its available ring and its used ring.
#[derive(Clone, Copy, Debug, Default, PartialEq, Eq)]
pub struct ReadyQueue {
    pub size: u16,
    pub desc: u64,
    pub driver: u64,
    pub device: u64,
}

/// What the driver wrote of one queue.
#[derive(Clone, Copy, Default)]
pub struct QueueRegs {
    pub ready: bool,
    pub place: ReadyQueue,
}

/// A number with another half, low (0) or high (1). There are two halves of 32 bits.
pub fn with_half(number: u64, half: u32, value: u32) -> u64
    ensures { result ≡ with_half half value number }
{
    match half {
        0 => (number >> 32 << 32) + value as u64,
        1 => ((value as u64) << 32) + number % 0x1_0000_0000,
        _ => number,
    }
}

// Whether bytes from an address on are aligned and lie inside the memory.
fn is_fit(at: u64, len: u64, align: u64, limits: Limits) -> bool
    requires { 0 < align }
    ensures { result ≡ is_fit limits at len align }
{
    at % align == 0
        && at >= limits.base
        && at - limits.base <= limits.size
        && len <= limits.size - (at - limits.base)
}

// Whether bytes from two addresses on have none in common.
fn is_apart(a: u64, a_len: u64, b: u64, b_len: u64) -> bool
    ensures { result ≡ is_apart a a_len b b_len }
{
    a <= b && a_len <= b - a || b <= a && b_len <= a - b
}

impl ReadyQueue {
    /// Whether the three areas are aligned, lie inside the memory and have no byte in common.
    #[tactic(auto, unfolding(crate::specs::Queue::is_placed))]
    pub fn is_placed(&self, limits: Limits) -> bool
        ensures { result ≡ is_placed limits self.now }
    {
        let n = self.size as u64;
        let (desc, driver, device) = (16 * n, 6 + 2 * n, 6 + 8 * n);
        is_fit(self.desc, desc, 16, limits)
            && is_fit(self.driver, driver, 2, limits)
            && is_fit(self.device, device, 4, limits)
            && is_apart(self.desc, desc, self.driver, driver)
            && is_apart(self.driver, driver, self.device, device)
            && is_apart(self.desc, desc, self.device, device)
    }

    // Writes the size or half an address. A size of 16 bits or more stays one that no queue may have.
    fn write(&mut self, offset: u64, value: u32)
        ensures { self.new ≡ written offset value self.old }
    {
        match offset {
            0x038 => self.size = value.min(0xffff) as u16,
            0x080 => self.desc = with_half(self.desc, 0, value),
            0x084 => self.desc = with_half(self.desc, 1, value),
            0x090 => self.driver = with_half(self.driver, 0, value),
            0x094 => self.driver = with_half(self.driver, 1, value),
            0x0a0 => self.device = with_half(self.device, 0, value),
            0x0a4 => self.device = with_half(self.device, 1, value),
            _ => {}
        }
    }
}

impl QueueRegs {
    /// Writes a register: `QueueReady` where the queue may be ready, the others as long as it isn't.
    pub fn write(&mut self, offset: u64, value: u32, limits: Limits, features_ok: bool)
        ensures { self.new ≡ queue_after offset value limits features_ok self.old }
    {
        if offset == READY_AT {
            let sized = self.place.size.is_power_of_two() && self.place.size <= limits.max;
            let allowed = features_ok && sized && self.place.is_placed(limits);
            self.ready = value != 0 && (self.ready || value == 1 && allowed);
        } else if !self.ready {
            self.place.write(offset, value);
        }
    }
}
