//! Laws of the driver over a ring that tells its log.

ghost use Rattle.std.specs.Prelude.{◌≡◌, ◌<◌, ◌≤◌, ◌^◌, ◌==◌, ◌&&◌, ℕ, Bool, true, List, [], length, All, Result};
ghost use Rattle.vs_contents.specs.CallTree.{Leads};
ghost use Rattle.vs_flow.specs.Table.{IsTable};
ghost use Rattle.vs_ring_port.specs.{Contents.RingContents, DriverCalls.DriverAllows, EndLog.EndLog, declared.queue.Queue.TheVariants.Event};
ghost use Rattle.vs_driver_parts.specs.{declared.answers.{ConnectError.ConnectError, Polled.Polled, Sent.Sent}, State.DriverState, Connections.{after_close, after_grow}};
ghost use Rattle.vs_driver_parts.specs.{Connections.{after_recv, after_shutdown, after_unlisten, table_shown}, Conversations.{DriverTree, connect_to, new_of, poll_of, send_of}};
ghost use Rattle.vs_driver_parts.specs.{Listening.{after_accept, listening}, Playing.{MayPublishAll, Plays}, Receiving.is_reset_event, Steps.takes_page};
ghost use Rattle.vs_limits.specs.declared.TheConstants.{BUF_ALLOC_MAX, DRIVER_REPLIES_FULL, HOST_CID, LAST_PORT};
ghost use Rattle.laws_driver.specs.{Honest.{AgreesWith, IsFresh, IsHonestWith, IsLeftOpen}, Resets.RingBrings};

/// Over an honest ring all that a call puts may be put: it keeps the log fair, so the driver never exceeds the credit that was advertised.
/// After the call the driver's connections are again those that the log left (Virtio 1.2, section 5.10.6.3).
pub fn law_of_ring_calls()
    ensures new_may { (size port id : ℕ) (c : RingContents) → port ≤ LAST_PORT → IsFresh c → MayPublishAll (new_of size port id) c }
    ensures new { (size port id : ℕ) (c d : RingContents) (s : DriverState) → port ≤ LAST_PORT → IsFresh c → Plays (new_of size port id) c s d
        → IsHonestWith true s.cid s d }
    // A connect to another guest's CID leaves what a connect to the host does, but that no packet was refused.
    ensures connect_may { (hosts : Bool) (first peer to : ℕ) (s : DriverState) (c : RingContents) → peer < 2 ^ 64 → to < 2 ^ 32
        → IsHonestWith hosts first s c → MayPublishAll (connect_to peer to s) c }
    ensures connect { (hosts : Bool) (first peer to : ℕ) (s : DriverState) (c d : RingContents) (x : DriverState × Result ℕ ConnectError)
        → peer < 2 ^ 64 → to < 2 ^ 32 → IsHonestWith hosts first s c → Plays (connect_to peer to s) c x d
        → IsHonestWith ((peer == HOST_CID) && hosts) first x.0 d }
    ensures send_may { (hosts : Bool) (first id : ℕ) (bytes : List ℕ) (s : DriverState) (c : RingContents) → IsHonestWith hosts first s c
        → MayPublishAll (send_of id bytes s) c }
    ensures send { (hosts : Bool) (first id : ℕ) (bytes : List ℕ) (s : DriverState) (c d : RingContents) (x : DriverState × Sent)
        → IsHonestWith hosts first s c → Plays (send_of id bytes s) c x d → IsHonestWith hosts first x.0 d }
    ensures poll_may { (hosts : Bool) (first : ℕ) (s : DriverState) (c : RingContents) → IsHonestWith hosts first s c → MayPublishAll (poll_of s) c }
    ensures poll { (hosts : Bool) (first : ℕ) (s : DriverState) (c d : RingContents) (x : DriverState × Polled) → IsHonestWith hosts first s c
        → Plays (poll_of s) c x d → IsHonestWith hosts first x.0 d }
{}

/// The other calls put and get nothing, and the driver's connections stay those that the log left.
pub fn law_of_other_calls()
    ensures recv { (hosts : Bool) (first id n : ℕ) (s : DriverState) (c : RingContents) → IsHonestWith hosts first s c → IsHonestWith hosts first (after_recv id n s) c }
    ensures shutdown { (hosts : Bool) (first id bits : ℕ) (s : DriverState) (c : RingContents) → IsHonestWith hosts first s c
        → IsHonestWith hosts first (after_shutdown id bits s) c }
    ensures grow { (hosts : Bool) (first id alloc : ℕ) (s : DriverState) (c : RingContents) → IsHonestWith hosts first s c
        → IsHonestWith hosts first (after_grow id alloc s) c }
    ensures close { (hosts : Bool) (first id : ℕ) (s : DriverState) (c : RingContents) → IsHonestWith hosts first s c → IsHonestWith hosts first (after_close id s) c }
    ensures listen { (hosts : Bool) (first port : ℕ) (s : DriverState) (c : RingContents) → IsHonestWith hosts first s c → IsHonestWith hosts first (listening port s) c }
    ensures unlisten { (hosts : Bool) (first port : ℕ) (s : DriverState) (c : RingContents) → IsHonestWith hosts first s c
        → IsHonestWith hosts first (after_unlisten port s) c }
    ensures accept { (hosts : Bool) (first port : ℕ) (s : DriverState) (c : RingContents) → IsHonestWith hosts first s c
        → IsHonestWith hosts first (after_accept port s) c }
{}

/// The driver's table has exactly the flows that the log left open. What is unread of a connection is at most its buffer space.
pub fn law_of_the_table()
    ensures open { (hosts : Bool) (first : ℕ) (s : DriverState) (l : EndLog) → AgreesWith hosts first s l → IsLeftOpen first (table_shown s) s.replies l }
    ensures unread { (hosts : Bool) (first : ℕ) (s : DriverState) (l : EndLog) → AgreesWith hosts first s l
        → All (λ e. (length e.value.unread ≤ e.value.end.credit.alloc) × (e.value.end.credit.alloc ≤ BUF_ALLOC_MAX)) s.table.entries }
{}

/// A conversation with the driver's ring is one with any ring: each answer is one that a ring may give. What the other end did stays.
pub fn law_of_answers<T>()
    ensures answers { (tree : DriverTree T) (c d : RingContents) (x : T) → Plays tree c x d → Leads DriverAllows tree c x d }
    ensures other { (tree : DriverTree T) (c d : RingContents) (x : T) → Plays tree c x d → d.other ≡ c.other }
{}

/// The step that takes the event page of a transport reset leaves the driver's table empty, over any ring and whatever it answers besides
/// (Virtio 1.2, section 5.10.6.7).
pub fn law_of_emptied_tables()
    ensures { (s t : DriverState) (page : List ℕ) (c d : RingContents) → IsTable s.table → length s.replies ≤ DRIVER_REPLIES_FULL
        → is_reset_event page ≡ true → Leads (RingBrings page) (takes_page Event s) c t d → t.table.entries ≡ [] }
{}
