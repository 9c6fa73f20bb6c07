//! Device status (Virtio 1.2, section 2.1), feature bits (section 2.2) and interrupt status (section 4.2.2).
ghost use Rattle.std.specs.Prelude.{◌≡◌};
ghost use Rattle.vs_mmio.specs.Registers.{are_accepted, status_after, status_number, value_where};

/// Status bit: the guest has found the device.
pub const ACKNOWLEDGE: u32 = 1;
/// Status bit: the guest knows how to drive the device.
pub const DRIVER: u32 = 2;
/// Status bit: the driver is set up.
pub const DRIVER_OK: u32 = 4;
/// Status bit: the features are negotiated.
pub const FEATURES_OK: u32 = 8;
/// Status bit: the device has failed.
pub const DEVICE_NEEDS_RESET: u32 = 64;
/// Status bit: the guest has given the device up.
pub const FAILED: u32 = 128;
/// Interrupt status: a used index was stored.
pub const USED_BUFFER: u32 = 1;
/// Interrupt status: the configuration or the device status changed.
pub const CONFIGURATION_CHANGE: u32 = 2;
/// Feature bit 32.
pub const VERSION_1: u64 = 0x1_0000_0000;
/// Feature bits that the device offers: stream sockets (0), seqpacket sockets (1), indirect descriptors (28), event index (29) and
/// `VERSION_1`.
pub const OFFERED: u64 = 0x1_3000_0003;

/// The bits of the device status.
#[derive(Clone, Copy, Default)]
pub struct Status {
    pub acknowledge: bool,
    pub driver: bool,
    pub driver_ok: bool,
    pub features_ok: bool,
    pub needs_reset: bool,
    pub failed: bool,
}

/// A value where a condition holds, and else 0.
pub fn value_if(holds: bool, value: u32) -> u32
    ensures { result ≡ value_where holds value }
{
    if holds { value } else { 0 }
}

// Whether the device accepts the driver's features: all are offered, and `VERSION_1` is among them.
fn accepts(features: u64) -> bool
    ensures { result ≡ are_accepted features }
{
    features & OFFERED == features && features & VERSION_1 != 0
}

impl Status {
    /// The status as a number.
    pub fn number(&self) -> u32
        ensures { result ≡ status_number self.now }
    {
        value_if(self.acknowledge, ACKNOWLEDGE)
            + value_if(self.driver, DRIVER)
            + value_if(self.driver_ok, DRIVER_OK)
            + value_if(self.features_ok, FEATURES_OK)
            + value_if(self.needs_reset, DEVICE_NEEDS_RESET)
            + value_if(self.failed, FAILED)
    }

    /// Adds the bits of a value: `FEATURES_OK` only where the features are accepted, `DRIVER_OK` only where `FEATURES_OK`
    /// stands then.
    pub fn add(&mut self, value: u32, features: u64)
        ensures { self.new ≡ status_after value features self.old }
    {
        self.acknowledge = self.acknowledge || value & ACKNOWLEDGE != 0;
        self.driver = self.driver || value & DRIVER != 0;
        self.features_ok = self.features_ok || value & FEATURES_OK != 0 && accepts(features);
        self.driver_ok = self.driver_ok || value & DRIVER_OK != 0 && self.features_ok;
        self.failed = self.failed || value & FAILED != 0;
    }
}
