//! Laws on the bytes of the driver's connections.

ghost use Rattle.std.specs.{Prelude.{◌≡◌, ◌<◌, ◌≤◌, ◌^◌, ◌++◌, ℕ, true, List, [], Result, Some}, Option.ForSome};
ghost use Rattle.vs_flow.specs.Connection.{Connection};
ghost use Rattle.vs_page.specs.Log.{Driver};
ghost use Rattle.laws_tables.specs.Later.{StaysShut};
ghost use Rattle.vs_ring_port.specs.Contents.{IsSound, RingContents};
ghost use Rattle.vs_driver_parts.specs.{declared.answers.{ConnectError.ConnectError, Polled.Polled, Sent.Sent}, Conversations.{DriverTree, connect_of, new_of, poll_of, send_of}};
ghost use Rattle.vs_driver_parts.specs.{Playing.Plays, State.{DriverEntry, DriverState, entry_known_as}, Connections.{after_close, after_grow, after_recv, after_shutdown}};
ghost use Rattle.vs_driver_parts.specs.{Connections.after_unlisten, Listening.{after_accept, listening}};
ghost use Rattle.vs_limits.specs.declared.TheConstants.{LAST_PORT};
ghost use Rattle.laws_driver.specs.{Honest.{IsFresh, IsHonestWith}, Carried.Calls.{GuestCall, IsJournaledWith, Journal, ReplyTo, account_of, is_right, makes_call, sent_of}};
ghost use Rattle.laws_driver.specs.Carried.{Calls.{whole_call, with_call}, Received.{Account, GoesOnWith, IsReceivedWith, after_receive, no_account}, Senders.GoesRightWith};
ghost use Rattle.laws_driver.specs.Carried.{Senders.IsRightWith, Sent.{PutsJust, StaysPast, TellsMore, none_on, took}};

/// Over an honest ring that tells its log a call, whole or on the pages as they stand, puts just the bytes that its reply says a send took, on
/// the connection of the send's id, and none on any other. A poll puts no payload (Virtio 1.2, section 5.10.6.3).
pub fn law_of_sent()
    ensures call { (first : ℕ) (call : GuestCall) (s : DriverState) (c d : RingContents) (x : DriverState × ReplyTo call) → is_right call ≡ true
        → IsHonestWith true first s c → Plays (whole_call call s) c x d → PutsJust (sent_of call x.1 s) c d }
    ensures step { (first : ℕ) (call : GuestCall) (s : DriverState) (c d : RingContents) (x : DriverState × ReplyTo call) → is_right call ≡ true
        → IsHonestWith true first s c → Plays (makes_call call s) c x d → PutsJust (sent_of call x.1 s) c d }
    ensures poll { (first : ℕ) (s : DriverState) (c d : RingContents) (x : DriverState × Polled) → IsHonestWith true first s c
        → Plays (poll_of s) c x d → PutsJust none_on c d }
    // A send takes nothing once its end has shut its sending.
    ensures shut { (id : ℕ) (bytes : List ℕ) (e : DriverEntry) (s : DriverState) (c d : RingContents) (x : DriverState × Sent)
        → entry_known_as id s ≡ Some e → e.value.end.own.send ≡ true → Plays (send_of id bytes s) c x d → took bytes x.1 ≡ [] }
{}

/// Any conversation of the driver, over any ring: a log that is told is told with more entries. Over an honest ring no more payload is put
/// on a connection after the SHUTDOWN that says 'no more is sent'; nor, where the guest asked the host alone, by any call or poll once its end
/// decided so, told or not, also where its flow is used again (Virtio 1.2, section 5.10.6.5).
pub fn law_of_logs<T>()
    ensures grows { (tree : DriverTree T) (c d : RingContents) (x : T) → Plays tree c x d → TellsMore c.log d.log }
    ensures shut { (tree : DriverTree T) (c d : RingContents) (x : T) → IsSound Driver c → Plays tree c x d → c.honest ≡ true
        → ForSome c.log (λ l. ForSome d.log (λ m. StaysShut Driver l.entries m.entries)) }
    ensures decided { (first : ℕ) (k : Connection) (call : GuestCall) (s : DriverState) (c d : RingContents) (x : DriverState × ReplyTo call)
        → is_right call ≡ true → IsHonestWith true first s c → Plays (whole_call call s) c x d → StaysPast k s x.0 c d }
    ensures decided_step { (first : ℕ) (k : Connection) (call : GuestCall) (s : DriverState) (c d : RingContents) (x : DriverState × ReplyTo call)
        → is_right call ≡ true → IsHonestWith true first s c → Plays (makes_call call s) c x d → StaysPast k s x.0 c d }
    ensures decided_poll { (first : ℕ) (k : Connection) (s : DriverState) (c d : RingContents) (x : DriverState × Polled)
        → IsHonestWith true first s c → Plays (poll_of s) c x d → StaysPast k s x.0 c d }
{}

/// What an application received on a connection, and then the bytes that are unread, is the payload got on it up to its end, until the
/// application says that it receives no more or closes it, and a prefix of that always. A receive gives of the unread bytes the first; a send
/// and the calls that make no use of the ring give none (Virtio 1.2, section 5.10.6.3).
pub fn law_of_received()
    ensures new { (size port id : ℕ) (c d : RingContents) (s : DriverState) → port ≤ LAST_PORT → IsFresh c → Plays (new_of size port id) c s d
        → IsReceivedWith (no_account id) s d }
    ensures recv { (first id n : ℕ) (a : Account) (s : DriverState) (c : RingContents) → IsHonestWith true first s c → IsReceivedWith a s c
        → IsReceivedWith (after_receive id n s a) (after_recv id n s) c }
    ensures send { (first id : ℕ) (bytes : List ℕ) (a : Account) (s : DriverState) (c d : RingContents) (x : DriverState × Sent)
        → IsHonestWith true first s c → IsReceivedWith a s c → Plays (send_of id bytes s) c x d → IsReceivedWith a x.0 d }
    // Nor do a connect and a poll. The ids of connections that they open come to the account.
    ensures connect { (first host : ℕ) (a : Account) (s : DriverState) (c d : RingContents) (x : DriverState × Result ℕ ConnectError)
        → host < 2 ^ 32 → IsHonestWith true first s c → IsReceivedWith a s c → Plays (connect_of host s) c x d → GoesOnWith a x.0 d }
    ensures poll { (first : ℕ) (a : Account) (s : DriverState) (c d : RingContents) (x : DriverState × Polled)
        → IsHonestWith true first s c → IsReceivedWith a s c → Plays (poll_of s) c x d → GoesOnWith a x.0 d }
    ensures shutdown { (first id bits : ℕ) (a : Account) (s : DriverState) (c : RingContents) → IsHonestWith true first s c → IsReceivedWith a s c
        → IsReceivedWith a (after_shutdown id bits s) c }
    ensures grow { (first id alloc : ℕ) (a : Account) (s : DriverState) (c : RingContents) → IsHonestWith true first s c → IsReceivedWith a s c
        → IsReceivedWith a (after_grow id alloc s) c }
    ensures close { (first id : ℕ) (a : Account) (s : DriverState) (c : RingContents) → IsHonestWith true first s c → IsReceivedWith a s c
        → IsReceivedWith a (after_close id s) c }
    ensures listen { (first port : ℕ) (a : Account) (s : DriverState) (c : RingContents) → IsHonestWith true first s c → IsReceivedWith a s c
        → IsReceivedWith a (listening port s) c }
    ensures unlisten { (first port : ℕ) (a : Account) (s : DriverState) (c : RingContents) → IsHonestWith true first s c → IsReceivedWith a s c
        → IsReceivedWith a (after_unlisten port s) c }
    ensures accept { (first port : ℕ) (a : Account) (s : DriverState) (c : RingContents) → IsHonestWith true first s c → IsReceivedWith a s c
        → IsReceivedWith a (after_accept port s) c }
{}

/// What the journal says was received: over an honest ring that tells its log the account is right that the journal comes to, once a call was
/// made, whole or on the pages as they stand, with its reply. A journal that is right says as well what was sent: each entry that sent bytes
/// names an id that was given to a connection, and the payload put on each connection is what was sent on its ids. So is the empty one of a
/// driver that was just made, and so it stays over calls and polls.
pub fn law_of_journals()
    ensures call { (first id : ℕ) (opened : ℕ → Connection) (journal : Journal) (call : GuestCall) (s : DriverState) (c d : RingContents)
        (x : DriverState × ReplyTo call) → is_right call ≡ true → IsHonestWith true first s c → IsReceivedWith (account_of id opened journal) s c
        → Plays (whole_call call s) c x d → IsJournaledWith id opened (with_call call s x.1 journal) x.0 d }
    ensures step { (first id : ℕ) (opened : ℕ → Connection) (journal : Journal) (call : GuestCall) (s : DriverState) (c d : RingContents)
        (x : DriverState × ReplyTo call) → is_right call ≡ true → IsHonestWith true first s c → IsReceivedWith (account_of id opened journal) s c
        → Plays (makes_call call s) c x d → IsJournaledWith id opened (with_call call s x.1 journal) x.0 d }
    ensures right_new { (size port id : ℕ) (c d : RingContents) (s : DriverState) → port ≤ LAST_PORT → IsFresh c → Plays (new_of size port id) c s d
        → IsRightWith id (no_account id).opened [] s d }
    ensures right { (first id : ℕ) (opened : ℕ → Connection) (journal : Journal) (call : GuestCall) (s : DriverState) (c d : RingContents)
        (x : DriverState × ReplyTo call) → is_right call ≡ true → IsHonestWith true first s c → IsRightWith id opened journal s c
        → Plays (whole_call call s) c x d → GoesRightWith id opened (with_call call s x.1 journal) x.0 d }
    ensures right_step { (first id : ℕ) (opened : ℕ → Connection) (journal : Journal) (call : GuestCall) (s : DriverState) (c d : RingContents)
        (x : DriverState × ReplyTo call) → is_right call ≡ true → IsHonestWith true first s c → IsRightWith id opened journal s c
        → Plays (makes_call call s) c x d → GoesRightWith id opened (with_call call s x.1 journal) x.0 d }
    ensures right_poll { (first id : ℕ) (opened : ℕ → Connection) (journal : Journal) (s : DriverState) (c d : RingContents)
        (x : DriverState × Polled) → IsHonestWith true first s c → IsRightWith id opened journal s c → Plays (poll_of s) c x d
        → GoesRightWith id opened journal x.0 d }
{}
