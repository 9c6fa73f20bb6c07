//! Laws on the journal of a run.

ghost use Rattle.std.specs.Prelude.{◌≡◌, ◌<◌, ◌≤◌, ℕ, Bool, true, List, [], ◌∷◌, ◌++◌, Ok, length, slice_index_or};
ghost use Rattle.vs_flow.specs.Connection.{Connection};
ghost use Rattle.vs_page.specs.{Fair.payload_put, Log.{Driver, Log}};
ghost use Rattle.vs_ring_port.specs.Contents.{RingContents};
ghost use Rattle.vs_driver_parts.specs.{Conversations.{new_of, poll_of}, Held.HeldSlots, Playing.Plays, State.DriverState, declared.answers.Polled.Polled};
ghost use Rattle.laws_driver.specs.{Honest.{IsFresh, IsHonestWith}, Carried.{Calls.{GuestCall, Journal, ReplyTo, is_right, whole_call, with_call}, Senders.IsRightJournal}};
ghost use Rattle.vs_script.specs.{Script.{Runs, parse_of}, declared.script.Command.TheVariants.Run as ForRun};
ghost use Rattle.vs_apps_parts.specs.{declared.{journal.{Called.Called, Entry.Entry}, progress.{AppState.AppState, Stepped.Stepped}}, Journals.{entry_called, made_as, sent_as}};
ghost use Rattle.vs_apps_parts.specs.Scripts.{AreRight, RunScript, with_noted};
ghost use Rattle.laws_apps.specs.{Accounts.IsAccounted, Ports.GivesPortsWith, Runs.{HasFlow, IsRunOf, PollsTo, Run, Steps, no_app}};
ghost use Rattle.vs_limits.specs.declared.TheConstants.{LAST_PORT};

/// A call that was made, and a poll, keep the journal's account right: what was sent on each connection is the payload that the log put, and
/// what was received on it, with the bytes that are unread behind, the payload that was got until its end, as long as no app said that it
/// receives no more there or closed it, and a prefix of that in any case (Virtio 1.2, section 5.10.6.3).
pub fn law_of_accounts()
    ensures call { (first first_id : ℕ) (journal : Journal) (entries : List Entry) (call : GuestCall) (s : DriverState) (c d : RingContents)
        (x : DriverState × ReplyTo call) → is_right call ≡ true → IsHonestWith true first s c → IsAccounted first_id journal entries s c
        → Plays (whole_call call s) c x d → IsAccounted first_id (with_call call s x.1 journal) entries x.0 d }
    ensures poll { (first first_id : ℕ) (journal : Journal) (entries : List Entry) (s : DriverState) (c d : RingContents)
        (x : DriverState × Polled) → IsHonestWith true first s c → IsAccounted first_id journal entries s c → Plays (poll_of s) c x d
        → IsAccounted first_id journal entries x.0 d }
    ensures honest { (first : ℕ) (call : GuestCall) (s : DriverState) (c d : RingContents)
        (x : DriverState × ReplyTo call) → is_right call ≡ true → IsHonestWith true first s c → Plays (whole_call call s) c x d
        → IsHonestWith true first x.0 d }
    // A call that only told to wait needs no entry.
    ensures noted { (first_id : ℕ) (journal : Journal) (entries : List Entry) (call : GuestCall) (s : DriverState) (c d : RingContents)
        (x : DriverState × ReplyTo call) → Plays (whole_call call s) c x d → IsAccounted first_id (with_call call s x.1 journal) entries x.0 d
        → IsAccounted first_id (with_noted (made_as call x.1 ∷ []) journal) entries x.0 d }
    // An entry more that has the flow of its connection, by the driver as it is.
    ensures entry { (first_id k : ℕ) (journal : Journal) (entries : List Entry) (called : Called) (s : DriverState) (c : RingContents)
        → HasFlow called s → IsAccounted first_id journal entries s c → IsAccounted first_id journal (entries ++ entry_called k called ∷ []) s c }
    // By ids: what was sent on an id is the payload put on its connection.
    ensures ids { (first_id id : ℕ) (opened : ℕ → Connection) (journal : Journal) (log : Log) (slots : HeldSlots)
        → IsRightJournal first_id opened journal log slots → 1 ≤ (opened id).number → payload_put Driver (opened id) log ≡ sent_as id journal }
{}

/// A step of an app keeps what is true of a run: the calls of each app are, in order, its instructions, and the journal's account is right.
pub fn law_of_steps()
    ensures steps { (first k : ℕ) (script : RunScript) (s : Stepped) (moved : Bool) (old new : Run) → k < length script
        → IsRunOf first script old → Steps script k s moved old new → IsRunOf first script new }
    // The first run of all: a driver just made, no entry, and each app at its first instruction.
    ensures begins { (size port : ℕ) (c d : RingContents) (s : DriverState) (script : RunScript) (apps : List AppState) → port ≤ LAST_PORT
        → IsFresh c → Plays (new_of size port 1) c s d → length apps ≡ length script
        → ((k : ℕ) → slice_index_or apps k no_app ≡ no_app)
        → IsRunOf s.cid script (record { driver = s; ring = d; apps = apps; entries = []; bytes = [] }) }
    ensures polls { (first : ℕ) (script : RunScript) (polled : Polled) (old new : Run) → IsRunOf first script old → PollsTo polled old new
        → IsRunOf first script new }
{}

/// The k-th connection that connects of a run's apps opened has the guest port k - 1 above that with which the driver was made, as long as that
/// is at most the last port. Each step of an app and each poll keep it.
pub fn law_of_ports()
    ensures steps { (port first k : ℕ) (script : RunScript) (s : Stepped) (moved : Bool) (old new : Run) → k < length script → IsRunOf first script old
        → Steps script k s moved old new → GivesPortsWith port old.entries old.driver old.ring → GivesPortsWith port new.entries new.driver new.ring }
    ensures polls { (port first : ℕ) (script : RunScript) (polled : Polled) (old new : Run) → IsRunOf first script old → PollsTo polled old new
        → GivesPortsWith port old.entries old.driver old.ring → GivesPortsWith port new.entries new.driver new.ring }
    ensures begins { (size port : ℕ) (c d : RingContents) (s : DriverState) → port ≤ LAST_PORT → IsFresh c → Plays (new_of size port 1) c s d
        → GivesPortsWith port [] s d }
{}

/// The apps of each script that is read for a run are right: the bits of each shutdown are 1 to 3.
pub fn law_of_scripts()
    ensures { (text : List ℕ) (script : RunScript) → parse_of ForRun text ≡ Ok (Runs script) → AreRight script }
{}
