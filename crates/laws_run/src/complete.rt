//! A law of complete runs, and of waits for a place and for a client.

ghost use Rattle.std.specs.Prelude.{◌≡◌, ◌<◌, ◌≤◌, ℕ, List, Some, false, true, length};
ghost use Rattle.vs_flow.specs.Connection.{Connection};
ghost use Rattle.vs_limits.specs.declared.TheConstants.{FIRST_CID};
ghost use Rattle.vs_outside.specs.{Faults.one_more, Host.HostContents};
ghost use Rattle.vs_ring_shared.specs.Sights.{DeviceSight, Sight, device_contents, driver_contents};
ghost use Rattle.vs_driver_parts.specs.{Connections.table_shown as guest_shown, State.DriverState, declared.answers.Polled.Polled};
ghost use Rattle.vs_device_parts.specs.{Playing.situation, State.counters_of, Turns.table_shown as device_shown};
ghost use Rattle.vs_proxy_parts.specs.State.{ProxyState};
ghost use Rattle.laws_proxy.specs.Honest.{IsProxyStreamed, IsProxyStreamedSince};
ghost use Rattle.laws_settled.specs.Settled.{IsSettled, IsSteady};
ghost use Rattle.vs_apps_parts.specs.{Scripts.RunScript, declared.{journal.Entry.Entry, progress.AppState.AppState}};
ghost use Rattle.laws_apps.specs.{Calls.run_with, Rounds.AllStand, Runs.{IsRunOf, PollsTo, Run, poll_moved}};
ghost use Rattle.vs_report.specs.declared.giving.Totals.{Totals};
ghost use Rattle.vs_run_report.specs.Right.{IsRightReport};
ghost use Rattle.laws_run.specs.{Complete.IsCompleteRun, Dry.{AreClientsDry, AreIdle, AreLinesIdle}, Places.ArePlaceWaits};

/// What is reported of a run that is at rest is right, and the run is complete, where each app's last step moved nothing, one after another, and the
/// poll after them moved nothing either: an app that waits for bytes received all that the host's program wrote on its connection and the proxy took,
/// and at an exchange it sent all of that, or lacks credit too; one that waits for bytes or for credit is on a connection whose stream is open, which
/// in the latter case takes nothing now, and of what was sent there the host's program has more than half of the buffer space still to read; none
/// waits for a connection to open, or for a page, where a page could be put at first; both tables have as many entries as there are streams with a label
/// that the proxy hasn't closed; each connect and accept that an app carried out opened a connection of its own, or was refused; each of a client has its
/// stream, and so has each of the guest's to a port at which the host listens, where no fault was counted, unless 64 streams have a label; on each connection
/// what the instructions name that the app carried out before it shut that was moved, unless one of them was over early, which where its stream is open is
/// where that ended or was closed; and one that an app closed is closed or takes nothing (Virtio 1.2, section 5.10.6.5). An app that waits for a place
/// finds all of the driver's slots held, by connections that an app opened and no close found, or whose stream takes nothing now, and by streams of
/// the host's clients that are connections which no app accepted; one that waits for a client does so on a port on which the script listens, and each connection on it whose
/// stream is open was given to an app. No client had been accepted before the proxy had the host, but such as are closed: then a read of each client's
/// stream that was accepted, has no label and isn't closed gives Again; and so does one of the oldest client's without a label that isn't closed, where no
/// fault was counted.
pub fn law_of_complete_runs()
    ensures runs { (script : RunScript) (driver : DriverState) (end : Sight) (apps : List AppState) (entries : List Entry) (bytes : List ℕ)
        (p : ProxyState) (e : DeviceSight) (h : HostContents) (faults : ℕ)
        → IsRunOf FIRST_CID script (run_with driver (driver_contents end) apps entries bytes) → IsSettled driver end p e
        → IsSteady p (situation (device_contents e) (Some h) faults)
        → (old stood : Run) → AllStand script (length script) old stood → old.driver.in_flight < old.driver.size → apps ≡ stood.apps
        → entries ≡ stood.entries
        → (polled : Polled) (told past : Run) → told.driver ≡ stood.driver → PollsTo polled told past → poll_moved polled ≡ false → driver ≡ past.driver
        → IsProxyStreamed FIRST_CID p (situation (device_contents e) (Some h) faults)
        → AreIdle p.device.table (Some h)
        → (opened : ℕ → Connection) × ((t : Totals) (before after : ℕ) → t.broken ≡ driver.broken → t.counters.overrun ≡ p.device.overrun
        → t.counters.dropped ≡ 0 → (1 ≤ t.counters.faults → one_more before ≤ after) → IsRightReport script apps entries bytes t opened end.log h before after)
        × ((t : Totals) → t.guest_open ≡ length (guest_shown driver) → t.device_open ≡ length (device_shown p.device)
        → t.counters ≡ counters_of p.device → IsCompleteRun script apps entries bytes t p.device.base opened h) × ArePlaceWaits script apps entries bytes opened h }
    ensures clients { (driver : DriverState) (end : Sight) (p : ProxyState) (e : DeviceSight) (h : HostContents) (faults : ℕ) → IsSettled driver end p e
        → IsProxyStreamedSince true FIRST_CID p (situation (device_contents e) (Some h) faults) → AreLinesIdle p (Some h) → AreClientsDry p.device.faults h }
{}
