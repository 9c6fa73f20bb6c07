//! Laws of the registers, over every list of calls: accesses of the driver, and what the device's monitor tells.
#![tactic(auto, using(crate::proofs::Steps::in_order, crate::proofs::Steps::limits_stay, crate::proofs::Steps::step))]

ghost use Rattle.std.specs.{Prelude.{◌≡◌, ℕ, ◌==◌, true, false, IfSome, IsTrue, List, None}, List.AllByRecursion};
ghost use Rattle.vs_mmio.specs.Registers.{Call, Write, after, after_write, are_accepted, fresh, led_to, may_run_of, queue_in, read_of, read_only, shown, writable, write_only};
ghost use Rattle.vs_mmio.specs.{Queue.may_be_ready, declared.{queue.{Limits.Limits, Virtqueue.Virtqueue}, regs.{RegisterState.RegisterState, TheConstants.STATUS_AT}}};

/// The standard's columns R and W. What the driver only writes reads 0, and what it only reads stays when it is written, as does
/// everything at an offset that isn't to be written. 0 in the status makes the registers as at first.
pub fn law_of_the_table()
    ensures write_only { (r : RegisterState) → AllByRecursion (λ (offset : ℕ). read_of r offset 4 ≡ 0) write_only }
    ensures read_only { (r : RegisterState) (v : ℕ) → AllByRecursion (λ (offset : ℕ). after_write offset v r ≡ r) read_only }
    ensures elsewhere { (r : RegisterState) (offset v : ℕ) → AllByRecursion (λ (at : ℕ). (offset == at) ≡ false) writable
        → after_write offset v r ≡ r }
    ensures renewed { (r : RegisterState) → after (Write STATUS_AT 0) r ≡ fresh r.cid r.limits }
{}

/// Queues after any calls. None is shown before `FEATURES_OK`. One that is shown has a size that is a power of two up to the
/// largest, and areas that are aligned, inside the memory and apart; it keeps both as long as it is ready, whatever is called.
pub fn law_of_queues()
    ensures hidden { (cid : ℕ) (limits : Limits) (calls : List Call) (queue : Virtqueue) → let r = led_to cid limits calls in
        r.status.features_ok ≡ false → shown (queue_in r queue) ≡ None }
    ensures shown { (cid : ℕ) (limits : Limits) (calls : List Call) (queue : Virtqueue) → let r = led_to cid limits calls in
        IfSome (shown (queue_in r queue)) (λ q. IsTrue (may_be_ready limits q)) }
    ensures kept { (r : RegisterState) (call : Call) (queue : Virtqueue) → (queue_in r queue).ready ≡ true
        → (queue_in (after call r) queue).ready ≡ true → queue_in (after call r) queue ≡ queue_in r queue }
{}

/// Features after any calls. Where `FEATURES_OK` stands, those that the driver wrote are offered, with `VERSION_1` among them, and
/// they stay as long as it stands.
pub fn law_of_features()
    ensures accepted { (cid : ℕ) (limits : Limits) (calls : List Call) → let r = led_to cid limits calls in
        r.status.features_ok ≡ true → are_accepted r.features ≡ true }
    ensures kept { (r : RegisterState) (call : Call) → r.status.features_ok ≡ true
        → (after call r).status.features_ok ≡ true → (after call r).features ≡ r.features }
{}

/// When the device may run, after any calls: not before `DRIVER_OK`, not before all three queues are ready, and so not before
/// `FEATURES_OK`.
pub fn law_of_running()
    ensures set_up { (r : RegisterState) → r.status.driver_ok ≡ false → may_run_of r ≡ false }
    ensures ready { (r : RegisterState) (queue : Virtqueue) → (queue_in r queue).ready ≡ false → may_run_of r ≡ false }
    ensures negotiated { (cid : ℕ) (limits : Limits) (calls : List Call) → let r = led_to cid limits calls in
        r.status.features_ok ≡ false → may_run_of r ≡ false }
{}
