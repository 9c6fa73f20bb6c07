//! Laws of the driver over any ring that tells its log, honest or not.

ghost use Rattle.std.specs.{Prelude.{◌≡◌, ◌<◌, ◌≤◌, ◌^◌, ℕ, List, Result}};
ghost use Rattle.vs_page.specs.Log.{Driver};
ghost use Rattle.vs_ring_port.specs.{Contents.RingContents, EndLog.EndLog, declared.queue.Queue.Queue};
ghost use Rattle.vs_driver_parts.specs.{declared.answers.{ConnectError.ConnectError, Polled.Polled, Sent.Sent}, State.DriverState, Connections.{after_close, after_grow}};
ghost use Rattle.vs_driver_parts.specs.{Connections.{after_recv, after_shutdown, after_unlisten, table_shown}, Conversations.{connect_to, new_of, poll_of, publish_of, send_of}};
ghost use Rattle.vs_driver_parts.specs.{Listening.{after_accept, listening}, Playing.Plays, Steps.{connects, sends, stages_owed, stages_reply, takes_page}};
ghost use Rattle.vs_limits.specs.declared.TheConstants.{LAST_PORT};
ghost use Rattle.laws_tables.specs.Heard.{AsksOnceLog, IsOrderedLog};
ghost use Rattle.laws_driver.specs.{Honest.IsLeftOpen, Told.{IsNew, IsStagedWith, IsTold, IsToldAtWork, IsToldWith}};

/// Whole calls over any ring that tells its log, whatever the device puts there: after each the driver's table has exactly the flows that the
/// log left open, less those to which an RST is owed as a reply, where packets come in order. So they do where each flow's first packet is its
/// only REQUEST, from the side that asks on it, and nothing is got behind a marked RST on a flow on which the driver asked; that the log is fair
/// isn't asked (Virtio 1.2, section 5.10.6).
pub fn law_of_told_tables()
    ensures new { (size port id : ℕ) (c d : RingContents) (s : DriverState) → port ≤ LAST_PORT → IsNew c → Plays (new_of size port id) c s d
        → IsToldWith s.cid s d }
    ensures connect { (first peer to : ℕ) (s : DriverState) (c d : RingContents) (x : DriverState × Result ℕ ConnectError)
        → peer < 2 ^ 64 → to < 2 ^ 32 → IsToldWith first s c → Plays (connect_to peer to s) c x d → IsToldWith first x.0 d }
    ensures send { (first id : ℕ) (bytes : List ℕ) (s : DriverState) (c d : RingContents) (x : DriverState × Sent)
        → IsToldWith first s c → Plays (send_of id bytes s) c x d → IsToldWith first x.0 d }
    ensures poll { (first : ℕ) (s : DriverState) (c d : RingContents) (x : DriverState × Polled)
        → IsToldWith first s c → Plays (poll_of s) c x d → IsToldWith first x.0 d }
    ensures table { (first : ℕ) (s : DriverState) (l : EndLog) → IsTold first s l → IsOrderedLog Driver l.entries
        → IsLeftOpen first (table_shown s) s.replies l }
    ensures once { (first : ℕ) (s : DriverState) (l : EndLog) → IsTold first s l → AsksOnceLog Driver l.entries
        → IsLeftOpen first (table_shown s) s.replies l }
{}

/// The calls that make no use of the ring keep it so.
pub fn law_of_other_told()
    ensures recv { (first id n : ℕ) (s : DriverState) (c : RingContents) → IsToldWith first s c → IsToldWith first (after_recv id n s) c }
    ensures shutdown { (first id bits : ℕ) (s : DriverState) (c : RingContents) → IsToldWith first s c → IsToldWith first (after_shutdown id bits s) c }
    ensures grow { (first id alloc : ℕ) (s : DriverState) (c : RingContents) → IsToldWith first s c → IsToldWith first (after_grow id alloc s) c }
    ensures close { (first id : ℕ) (s : DriverState) (c : RingContents) → IsToldWith first s c → IsToldWith first (after_close id s) c }
    ensures listen { (first port : ℕ) (s : DriverState) (c : RingContents) → IsToldWith first s c → IsToldWith first (listening port s) c }
    ensures unlisten { (first port : ℕ) (s : DriverState) (c : RingContents) → IsToldWith first s c → IsToldWith first (after_unlisten port s) c }
    ensures accept { (first port : ℕ) (s : DriverState) (c : RingContents) → IsToldWith first s c → IsToldWith first (after_accept port s) c }
{}

/// So do single steps of the calls, also while packets are staged and not published.
pub fn law_of_told_steps()
    ensures takes { (first : ℕ) (queue : Queue) (s t : DriverState) (c d : RingContents) → IsToldAtWork queue first s c
        → Plays (takes_page queue s) c t d → IsToldAtWork queue first t d }
    ensures publishes { (first : ℕ) (queue : Queue) (s t : DriverState) (c d : RingContents) → IsToldAtWork queue first s c
        → Plays (publish_of queue s) c t d → IsToldWith first t d }
    ensures replies { (first : ℕ) (s t : DriverState) (c d : RingContents) → IsStagedWith first s c → Plays (stages_reply s) c t d
        → IsStagedWith first t d }
    ensures owed { (first slot : ℕ) (s t : DriverState) (c d : RingContents) → IsStagedWith first s c → Plays (stages_owed slot s) c t d
        → IsStagedWith first t d }
    ensures connects { (first to : ℕ) (s : DriverState) (c d : RingContents) (x : DriverState × Result ℕ ConnectError)
        → to < 2 ^ 32 → IsToldWith first s c → Plays (connects to s) c x d → IsToldWith first x.0 d }
    ensures sends { (first id : ℕ) (bytes : List ℕ) (s : DriverState) (c d : RingContents) (x : DriverState × Sent)
        → IsToldWith first s c → Plays (sends id bytes s) c x d → IsToldWith first x.0 d }
{}
