//! What an end of many connections puts keeps its log fair by the peer, where packets come that a switch passed on from another guest.

ghost use Rattle.std.specs.Prelude.{◌≡◌, ◌<◌, ◌≤◌, ℕ, true, false, List, [], ◌∷◌, length, Some};
ghost use Rattle.vs_conn.specs.{Follows.{FitsMessage, IsTaken}, declared.end.Owed.Owed, End.{CanSend, ConnectionEnd, owes_of}};
ghost use Rattle.vs_flow.specs.{Flow.is_host, declared.flow.Flow.Flow};
ghost use Rattle.vs_header.specs.declared.Kind.{Kind};
ghost use Rattle.laws_history.specs.{Beside.is_plain_rst, History.{Asker, puts}, Packets.{is_request, is_rst}, declared.packet.Packet.Packet};
ghost use Rattle.laws_tables.specs.{ByPeer.IsSoundByPeer, Ends.{Ends, is_among, is_new}, Heard.{IsInOrder, heard_of, own_port}, Matches.{IsOwed, IsReady, Matches}, Steps.{HasEnd, HasNone, owed_on}};
ghost use Rattle.laws_tables.specs.Steps.{payload_on, reply_on, request_on};
ghost use Rattle.vs_page.specs.{Fair.{IsFairLog, IsFairLogByPeer}, Log.{Log, Role, flow_got, history_of, side_of}, Open.is_dropped};
ghost use Rattle.vs_page.specs.declared.log.LogEntry.TheVariants.{GotEvent, GotPacket, Mark, PutEvent, PutPacket};
ghost use Rattle.vs_replies.specs.declared.Reply.{Reply};

/// From an empty log on the log stays fair by the peer, and what was put within the credit that was heard: whatever is got that keeps it fair
/// by the peer, and at each packet that an end puts which matches its log. A reply to another guest may be put in any case
/// (Virtio 1.2, section 5.10.6.3).
pub fn law_of_fairness_by_peer()
    ensures fresh { (role : Role) (first : ℕ) → IsSoundByPeer role first [] }
    ensures got { (role : Role) (first : ℕ) (p : Packet) (log : Log) → IsSoundByPeer role first log → IsFairLogByPeer role (GotPacket p ∷ log)
        → IsSoundByPeer role first (GotPacket p ∷ log) }
    ensures event_put { (role : Role) (first id : ℕ) (log : Log) → IsSoundByPeer role first log → IsSoundByPeer role first (PutEvent id ∷ log) }
    ensures event_got { (role : Role) (first id : ℕ) (log : Log) → IsSoundByPeer role first log → IsSoundByPeer role first (GotEvent id ∷ log) }
    ensures mark { (role : Role) (first cid : ℕ) (log : Log) → IsSoundByPeer role first log → IsSoundByPeer role first (Mark cid ∷ log) }
    // A flow is asked for whose port wasn't given yet, or one that is ready by its history.
    ensures opens { (role : Role) (first cid : ℕ) (f : Flow) (kind : Kind) (part : Ends) (log : Log) → Matches role first part log
        → IsSoundByPeer role first log → side_of role f ≡ Asker → part.next_port ≤ own_port role f
        → IsSoundByPeer role first (PutPacket (request_on role cid f kind) ∷ log) }
    ensures again { (role : Role) (first cid : ℕ) (f : Flow) (kind : Kind) (log : Log) → IsSoundByPeer role first log
        → side_of role f ≡ Asker → IsReady (history_of role f log) → IsSoundByPeer role first (PutPacket (request_on role cid f kind) ∷ log) }
    ensures sends { (role : Role) (first cid : ℕ) (f : Flow) (e : ConnectionEnd) (payload : List ℕ) (part : Ends) (log : Log)
        → Matches role first part log → IsSoundByPeer role first log → HasEnd f e part → CanSend e (length payload)
        → FitsMessage e (puts (history_of role f log)) (length payload)
        → IsSoundByPeer role first (PutPacket (payload_on role cid f e payload) ∷ log) }
    ensures pays { (role : Role) (first cid : ℕ) (f : Flow) (e : ConnectionEnd) (what : Owed) (part : Ends) (log : Log)
        → Matches role first part log → IsSoundByPeer role first log → HasEnd f e part → is_new e ≡ false → owes_of e ≡ Some what
        → IsSoundByPeer role first (PutPacket (owed_on role cid f e what) ∷ log) }
    ensures replies { (role : Role) (first cid : ℕ) (r : Reply) (log : Log) → IsSoundByPeer role first log
        → (is_host r.flow ≡ true → IsOwed role log r) → IsSoundByPeer role first (PutPacket (reply_on role cid r) ∷ log) }
    // Where the log is fair at all, it is so.
    ensures fair { (role : Role) (first : ℕ) (part : Ends) (log : Log) → Matches role first part log → IsFairLog role log
        → IsSoundByPeer role first log }
{}

/// A packet with which the log is fair by the peer has fields that fit; and it comes in order to the end that asks on its flow, unless it is an RST
/// without the mark. So where that has a connection its end takes it, and else it is refused, and both leave the table matching (`law_of_taking`).
pub fn law_of_order_by_peer()
    ensures in_order { (role : Role) (first : ℕ) (p : Packet) (log : Log) → let f = flow_got role p in
        IsFairLogByPeer role (GotPacket p ∷ log) → side_of role f ≡ Asker → is_plain_rst p ≡ false
        → IsInOrder (side_of role f) (heard_of role first f log) p }
    ensures fits { (role : Role) (p : Packet) (log : Log) → IsFairLogByPeer role (GotPacket p ∷ log) → IsTaken p }
    // On a flow that has a connection whose REQUEST was put or got, so does every packet but a REQUEST.
    ensures known { (role : Role) (first : ℕ) (f : Flow) (p : Packet) (e : ConnectionEnd) (part : Ends) (log : Log) → Matches role first part log
        → IsFairLogByPeer role log → HasEnd f e part → is_new e ≡ false → is_request p ≡ false
        → IsInOrder (side_of role f) (heard_of role first f log) p }
{}

/// An RST that comes from another guest before any REQUEST on its flow, since that guest changed its CID, changes no connection: an end that asks
/// for such flows still matches its log, where its port of the flow is below the next that it gives, and the flow isn't kept to be used again.
pub fn law_of_strays()
    ensures { (role : Role) (first : ℕ) (p : Packet) (part : Ends) (log : Log) → let f = flow_got role p in Matches role first part log
        → is_dropped role part.cid p.header ≡ false → HasNone f part → is_rst p ≡ true
        → (side_of role f ≡ Asker → own_port role f < part.next_port) → is_among f part.clean ≡ false
        → Matches role first part (GotPacket p ∷ log) }
{}
