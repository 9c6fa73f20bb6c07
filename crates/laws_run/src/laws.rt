//! Laws of what a run of apps reports.

ghost use Rattle.std.specs.Prelude.{◌≡◌, ◌<◌, ◌≤◌, ℕ, List, Some, length};
ghost use Rattle.vs_flow.specs.Connection.{Connection};
ghost use Rattle.vs_limits.specs.declared.TheConstants.{FIRST_CID};
ghost use Rattle.vs_outside.specs.{Faults.one_more, Host.HostContents};
ghost use Rattle.vs_ring_shared.specs.Sights.{DeviceSight, Sight, device_contents, driver_contents};
ghost use Rattle.vs_driver_parts.specs.State.{DriverState};
ghost use Rattle.vs_device_parts.specs.Playing.{situation};
ghost use Rattle.vs_proxy_parts.specs.State.{ProxyState};
ghost use Rattle.laws_proxy.specs.Honest.{IsProxyStreamed};
ghost use Rattle.laws_settled.specs.Settled.{IsSettled, IsSteady};
ghost use Rattle.vs_apps_parts.specs.{Scripts.{RunScript, acts_of}, declared.{journal.Entry.Entry, progress.AppState.AppState}};
ghost use Rattle.laws_apps.specs.{Calls.run_with, Rounds.AllStand, Runs.{IsRunOf, Run}};
ghost use Rattle.vs_report.specs.declared.giving.Totals.{Totals};
ghost use Rattle.vs_run_report.specs.{Report.ended_at, Right.{IsRightEnding, IsRightReport}};

/// Where each app made a step that moved nothing, one after another, it found its instructions done, or noted a wait: so it is done, or waits
/// for what the instruction that it is at may wait for.
pub fn law_of_endings()
    ensures { (script : RunScript) (old new : Run) → length new.apps ≡ length script → AllStand script (length script) old new → (k : ℕ)
        → k < length script → IsRightEnding (acts_of k script) (ended_at script new.apps new.entries k) }
{}

/// What is reported of a run that is at rest is right, where the host's streams took and gave what the device's log says, and no app or entry
/// changed since each app's last step moved nothing: ids were given to connections with which the calls of each app are its instructions, each
/// app ended right, and on each connection that an app opened a prefix of what was sent was read by the host's program, and a prefix of what
/// that program wrote was received (Virtio 1.2, section 5.10.6). No payload went beyond its room and no packet broke a connection; that no
/// packet was dropped, and which faults were counted, the report has to know.
pub fn law_of_reports()
    ensures { (script : RunScript) (driver : DriverState) (end : Sight) (apps : List AppState) (entries : List Entry) (bytes : List ℕ)
        (p : ProxyState) (e : DeviceSight) (h : HostContents) (faults : ℕ)
        → IsRunOf FIRST_CID script (run_with driver (driver_contents end) apps entries bytes) → IsSettled driver end p e
        → IsSteady p (situation (device_contents e) (Some h) faults)
        → (old stood : Run) → AllStand script (length script) old stood → apps ≡ stood.apps → entries ≡ stood.entries
        → IsProxyStreamed FIRST_CID p (situation (device_contents e) (Some h) faults)
        → (opened : ℕ → Connection) × ((t : Totals) (before after : ℕ) → t.broken ≡ driver.broken → t.counters.overrun ≡ p.device.overrun
        → t.counters.dropped ≡ 0 → (1 ≤ t.counters.faults → one_more before ≤ after) → IsRightReport script apps entries bytes t opened end.log h before after) }
{}
