//! Laws of an end of many connections.

ghost use Rattle.std.specs.Prelude.{◌≡◌, ◌≢◌, ℕ, ◌≤◌, ◌⊎◌, ◌&&◌, ◌||◌, Bool, false, true, List, [], ◌∷◌, ◌++◌, length, find, AllPairs, Contains, Some, None};
ghost use Rattle.vs_conn.specs.{Follows.{FitsMessage, Follows, IsTaken}, declared.end.{Owed.{Owed, TheVariants.Response}, State.TheVariants.Live}, End.{CanSend, ConnectionEnd}};
ghost use Rattle.vs_conn.specs.End.{aborted, asked, grown, is_of, is_refused, is_reset, owes_of, paid_of, verdict_of, wanting_credit, with_payload_forwarded, with_payload_sent};
ghost use Rattle.vs_conn.specs.End.{with_shut};
ghost use Rattle.vs_header.specs.{Kind.kind_number, declared.{Kind.{Kind, TheVariants.Stream}, Header.Header}};
ghost use Rattle.vs_credit.specs.Credit.{unread_of};
ghost use Rattle.vs_flow.specs.{Connection.Connection, Flow.same_flow, declared.{flow.Flow.Flow, table.Entry.Entry}, Table.{IsTable, Table, entry_of, with_entry, with_value, without}};
ghost use Rattle.vs_limits.specs.declared.TheConstants.{ASSIGNED_FIRST, FIRST_PORT, HOST_CID, BUF_ALLOC_MAX};
ghost use Rattle.laws_history.specs.{Again.IsClean, History.{Asker, Got, Put, gots, puts}, Packets.{is_clean_rst, is_request, is_rst}, declared.packet.Packet.Packet};
ghost use Rattle.laws_tables.specs.{Matches.{IsAsking, Matches}, Quiet.IsQuietOn, Both.{Both, Happening, IsSound, MayRun, MayStep, MayStepAll, Seat, Step}};
ghost use Rattle.laws_tables.specs.{Both.{after, after_all, after_packet, at, new_seat, run, start}, Examples.{guest_mark, log_of_early, log_of_mark, no_ends, spoiled, after_two}};
ghost use Rattle.laws_tables.specs.Examples.{asking_end, closing, guest_cid, guest_flow, heard_on, host_end, assigned_flow, kept_falsely, live_end, log_of_false_mark};
ghost use Rattle.laws_tables.specs.Examples.{log_of_return, log_of_two, log_over_reset, log_with_drop, lost_response, new_cid, opening, payload_after, resetting, unput};
ghost use Rattle.laws_tables.specs.Ends.{AreDistinct, Ends, answer_kind, begun_flows, ends_of, entries_of, flows_of, is_among, is_new, new_flows, replied, replaced, without_flow};
ghost use Rattle.laws_tables.specs.{Heard.{AsksOnce, AsksOnceLog, IsAllHeard, IsInOrder, IsOrderedLog, IsWithin, heard_of, is_awaiting, is_empty}, Later.{AsksOther, IsPast, IsShut, StillPast, StillShut}};
ghost use Rattle.laws_tables.specs.Steps.{HasEnd, HasNone, IsNextFlow, accepted, asking, emptied, is_message, is_overrun, left, opened, owed_on, paid};
ghost use Rattle.laws_tables.specs.Steps.{payload_on, refused, reply_on, request_on, reset, taken, with_connection, with_end, with_replies};
ghost use Rattle.vs_replies.specs.declared.Reply.{Reply};
ghost use Rattle.vs_page.specs.{Fair.{IsFairLog, IsFairOn, number_of}, Frame.is_about, Log.{Device, Driver, IsNextPacket, Log, Role, and_then, flow_got, flow_put, history_of, side_of}};
ghost use Rattle.vs_page.specs.{Log.whole_of, declared.log.LogEntry.{TheVariants.{GotEvent, GotPacket, Mark, PutEvent, PutPacket}, LogEntry}, Open.{Clean, Over, cid_of}};
ghost use Rattle.vs_page.specs.Open.{is_dropped, is_open, phase_of};

/// An end without connections matches the empty log. It still matches after it opens a connection whose REQUEST it puts at once, after
/// the device has one that asks, and after a REQUEST is accepted on a flow that has no connection.
pub fn law_of_opening()
    ensures starts { (role : Role) (first port : ℕ)
        → Matches role first (record { entries = []; replies = []; clean = []; next_port = port; cid = first }) [] }
    ensures opens { (role : Role) (first cid : ℕ) (f : Flow) (kind : Kind) (part : Ends) (log : Log) → Matches role first part log
        → IsNextFlow role f part
        → Matches role first (opened role f kind part) (PutPacket (request_on role cid f kind) ∷ log) }
    ensures asks { (first : ℕ) (f : Flow) (kind : Kind) (part : Ends) (log : Log) → Matches Device first part log
        → IsNextFlow Device f part → Matches Device first (asking Device f kind part) log }
    ensures accepts { (role : Role) (first : ℕ) (kind : Kind) (p : Packet) (part : Ends) (log : Log) → let f = flow_got role p in
        Matches role first part log → is_dropped role part.cid p.header ≡ false → HasNone f part
        → IsInOrder (side_of role f) (heard_of role first f log) p → IsTaken p → is_request p ≡ true → p.header.kind ≡ kind_number kind
        → Matches role first (accepted f kind p.header part) (GotPacket p ∷ log) }
    // A flow that is kept to be used again is clean by the log, where that is fair.
    ensures clean { (role : Role) (first : ℕ) (f : Flow) (part : Ends) (log : Log) → Matches role first part log → IsFairLog role log
        → is_among f part.clean ≡ true → phase_of role first f log ≡ Clean }
    // One that may be asked for has no history, or is clean by the log: no transport reset stood between its last REQUEST and the marked RST.
    ensures next { (role : Role) (first : ℕ) (f : Flow) (part : Ends) (log : Log) → Matches role first part log → IsFairLog role log
        → IsNextFlow role f part → (history_of role f log ≡ []) ⊎ (phase_of role first f log ≡ Clean) }
{}

/// An end still matches its log after it puts payload that a connection may send, a packet that a connection owes, or the oldest reply
/// that is owed.
pub fn law_of_putting()
    ensures sends { (role : Role) (first cid : ℕ) (f : Flow) (e : ConnectionEnd) (payload : List ℕ) (part : Ends) (log : Log)
        → Matches role first part log → HasEnd f e part → CanSend e (length payload)
        → FitsMessage e (puts (history_of role f log)) (length payload)
        → Matches role first (with_end f (with_payload_sent e (length payload)) part) (PutPacket (payload_on role cid f e payload) ∷ log) }
    ensures pays { (role : Role) (first cid : ℕ) (f : Flow) (e : ConnectionEnd) (what : Owed) (part : Ends) (log : Log)
        → Matches role first part log → HasEnd f e part → owes_of e ≡ Some what
        → Matches role first (paid f e what part) (PutPacket (owed_on role cid f e what) ∷ log) }
    ensures replies { (role : Role) (first cid : ℕ) (r : Reply) (rest : List Reply) (part : Ends) (log : Log)
        → Matches role first part log → part.replies ≡ r ∷ rest
        → Matches role first (with_replies rest part) (PutPacket (reply_on role cid r) ∷ log) }
{}

/// An end still matches its log after it gets a packet, whatever the peer put, where REQUESTs come in order: on a flow that has a
/// connection; on one that has none, where the packet is refused, or an RST that is ignored; and a packet that is dropped.
pub fn law_of_taking()
    ensures known { (role : Role) (first : ℕ) (p : Packet) (e : ConnectionEnd) (part : Ends) (log : Log) → let f = flow_got role p in
        Matches role first part log → is_dropped role part.cid p.header ≡ false → HasEnd f e part
        → IsInOrder (side_of role f) (heard_of role first f log) p → IsTaken p
        → Matches role first (taken role f e p part) (GotPacket p ∷ log) }
    ensures refused { (role : Role) (first : ℕ) (p : Packet) (part : Ends) (log : Log) → let f = flow_got role p in
        Matches role first part log → is_dropped role part.cid p.header ≡ false → HasNone f part → is_rst p ≡ false
        → IsInOrder (side_of role f) (heard_of role first f log) p
        → let h = p.header in Matches role first (refused f (answer_kind h.kind) part) (GotPacket p ∷ log) }
    ensures ignored { (role : Role) (first : ℕ) (p : Packet) (part : Ends) (log : Log) → let f = flow_got role p in
        Matches role first part log → is_dropped role part.cid p.header ≡ false → HasNone f part → is_rst p ≡ true
        → IsInOrder (side_of role f) (heard_of role first f log) p → Matches role first part (GotPacket p ∷ log) }
    ensures dropped { (role : Role) (first : ℕ) (p : Packet) (part : Ends) (log : Log) → let f = flow_got role p in
        Matches role first part log → is_dropped role part.cid p.header ≡ true
        → (is_request p ≡ true → IsInOrder (side_of role f) (heard_of role first f log) p) → Matches role first part (GotPacket p ∷ log) }
    // A connection leaves at an RST exactly where its end takes it for a message of its peer's.
    ensures leaves { (e : ConnectionEnd) (h : Header) → (is_message (verdict_of e h) && is_reset h) ≡ (is_reset h && is_of e.kind h) }
{}

/// An end still matches its log after one of its connections forwards payload or decides something, where the connection's REQUEST was
/// put or got. No packet passes.
pub fn law_of_changing()
    ensures changes { (role : Role) (first : ℕ) (f : Flow) (e after : ConnectionEnd) (part : Ends) (log : Log)
        → Matches role first part log → HasEnd f e part → is_new e ≡ false → after.kind ≡ e.kind
        → (let h = heard_of role first f log in
        Follows (side_of role f) (puts h) (gots h) e → Follows (side_of role f) (puts h) (gots h) after)
        → Matches role first (with_end f after part) log }
    ensures forwards { (role : Role) (first : ℕ) (f : Flow) (e : ConnectionEnd) (n : ℕ) (part : Ends) (log : Log)
        → Matches role first part log → HasEnd f e part → is_new e ≡ false → n ≤ unread_of e.credit
        → Matches role first (with_end f (with_payload_forwarded e n) part) log }
    ensures shuts { (role : Role) (first : ℕ) (f : Flow) (e : ConnectionEnd) (bits : ℕ) (part : Ends) (log : Log)
        → Matches role first part log → HasEnd f e part → is_new e ≡ false
        → Matches role first (with_end f (with_shut e bits) part) log }
    ensures aborts { (role : Role) (first : ℕ) (f : Flow) (e : ConnectionEnd) (part : Ends) (log : Log)
        → Matches role first part log → HasEnd f e part → is_new e ≡ false
        → Matches role first (with_end f (aborted e) part) log }
    ensures wants_credit { (role : Role) (first : ℕ) (f : Flow) (e : ConnectionEnd) (part : Ends) (log : Log)
        → Matches role first part log → HasEnd f e part → is_new e ≡ false
        → Matches role first (with_end f (wanting_credit e) part) log }
    ensures grows { (role : Role) (first : ℕ) (f : Flow) (e : ConnectionEnd) (alloc : ℕ) (part : Ends) (log : Log)
        → Matches role first part log → HasEnd f e part → is_new e ≡ false → e.state ≡ Live → e.credit.alloc ≤ alloc → alloc ≤ BUF_ALLOC_MAX
        → Matches role first (with_end f (grown e alloc) part) log }
{}

/// An end still matches its log after an event is put or got; after the driver takes a transport reset, which owes RST to each flow that
/// had a connection; and after the device makes one, which leaves nothing (Virtio 1.2, section 5.10.6.7).
pub fn law_of_events()
    ensures put { (role : Role) (first id : ℕ) (part : Ends) (log : Log) → Matches role first part log
        → Matches role first part (PutEvent id ∷ log) }
    ensures got { (role : Role) (first id : ℕ) (part : Ends) (log : Log) → Matches role first part log
        → Matches role first part (GotEvent id ∷ log) }
    ensures reset_taken { (first cid : ℕ) (part : Ends) (log : Log) → Matches Driver first part log
        → Matches Driver first (reset cid part) (Mark cid ∷ log) }
    ensures reset_made { (role : Role) (first cid : ℕ) (part : Ends) (log : Log) → Matches role first part log
        → Matches role first (emptied cid part) (Mark cid ∷ log) }
{}

/// Packets come in order over every fair log; and whatever the peer puts, over one in which each flow's first packet is its only REQUEST
/// and its own side's to put, where nothing follows a marked RST at the end that asked.
pub fn law_of_order()
    ensures in_order { (role : Role) (first : ℕ) (p : Packet) (log : Log) → let f = flow_got role p in
        IsOrderedLog role (GotPacket p ∷ log) → IsInOrder (side_of role f) (heard_of role first f log) p }
    ensures older { (role : Role) (entry : LogEntry) (log : Log) → IsOrderedLog role (entry ∷ log) → IsOrderedLog role log }
    ensures fair { (role : Role) (log : Log) → IsFairLog role log → IsOrderedLog role log }
    ensures once { (role : Role) (log : Log) → AsksOnceLog role log → IsOrderedLog role log }
{}

/// One seat by itself, over any ring that tells its log, whatever the peer puts: that the log is fair isn't asked. A step keeps it matching
/// its log where packets come in order. So from a new seat on, over a log in which they do, the flows of the table are those that the log
/// left open, less those to which an RST is owed as a reply, and those whose REQUEST isn't put yet.
pub fn law_of_one_seat()
    ensures keeps { (role : Role) (first : ℕ) (step : Step) (w : Seat) → MayStep role step w → Matches role first w.part w.log
        → let v = after role step w in IsOrderedLog role v.log → Matches role first v.part v.log }
    ensures matches { (role : Role) (first port : ℕ) (steps : List Step) → MayStepAll role steps (new_seat first port)
        → let w = after_all role steps (new_seat first port) in IsOrderedLog role w.log → Matches role first w.part w.log }
    ensures table { (role : Role) (first port : ℕ) (steps : List Step) (f : Flow) → MayStepAll role steps (new_seat first port)
        → let w = after_all role steps (new_seat first port) in IsOrderedLog role w.log
        → is_among f (flows_of w.part.entries)
        ≡ (is_open role first f w.log (is_among f (replied w.part.replies)) || is_among f (new_flows w.part.entries)) }
{}

/// Shutting is for good, over any ring that tells its log. Once a connection's end decided to send no more, told or not, no payload is put on its
/// flow, whatever its seat does, until the flow is asked for again or a REQUEST is taken on it. Where the seat matches its log, and that is fair,
/// none is put on the connection ever, also where its flow is used again (Virtio 1.2, section 5.10.6.5).
pub fn law_of_shutting()
    ensures begins { (f : Flow) (w : Seat) (e : ConnectionEnd) → HasEnd f e w.part → e.own.send ≡ true → IsShut f w }
    ensures step { (role : Role) (f : Flow) (step : Step) (w : Seat) → AsksOther role f step w → IsShut f w → StillShut role f w (after role step w) }
    ensures decides { (role : Role) (c : Connection) (w : Seat) (e : ConnectionEnd) → HasEnd c.flow e w.part → e.own.send ≡ true
        → c.number ≤ number_of role c.flow w.log → IsPast role c w }
    ensures stays { (role : Role) (first : ℕ) (c : Connection) (step : Step) (w : Seat) → MayStep role step w → Matches role first w.part w.log
        → let v = after role step w in IsFairLog role v.log → IsPast role c w → StillPast role c w v }
{}

/// What a step on a flow's connection does to the ends of that flow and of others.
pub fn law_of_ends()
    ensures replaced { (f : Flow) (e now : ConnectionEnd) (part : Ends) → HasEnd f e part → HasEnd f now (with_end f now part) }
    ensures left { (f : Flow) (part : Ends) → HasNone f (left f part) }
    ensures added { (f : Flow) (e : ConnectionEnd) (part : Ends) → HasNone f part → HasEnd f e (with_connection f e part) }
    ensures others_replaced { (f g : Flow) (e : ConnectionEnd) (part : Ends) → same_flow g f ≡ false
        → ends_of g (with_end f e part).entries ≡ ends_of g part.entries }
    ensures others_left { (f g : Flow) (part : Ends) → same_flow g f ≡ false → ends_of g (left f part).entries ≡ ends_of g part.entries }
    ensures others_added { (f g : Flow) (e : ConnectionEnd) (part : Ends) → same_flow g f ≡ false
        → ends_of g (with_connection f e part).entries ≡ ends_of g part.entries }
{}

/// What an end heard on a flow is what passed there without the packets that were dropped, and the driver drops none of the host's. A
/// packet that is put or got is the newest that was heard on its flow, and a REQUEST that is dropped ends what was heard there. A packet of
/// another flow, an event and a transport reset change nothing in it.
pub fn law_of_hearing()
    ensures driver { (first : ℕ) (f : Flow) (log : Log) → f.peer ≡ HOST_CID → IsAllHeard Driver first f log }
    ensures puts { (role : Role) (first : ℕ) (f : Flow) (log : Log) → puts (heard_of role first f log) ≡ puts (history_of role f log) }
    ensures put { (role : Role) (first : ℕ) (f : Flow) (p : Packet) (log : Log) → flow_put role p ≡ f
        → heard_of role first f (PutPacket p ∷ log) ≡ and_then (Put p) (heard_of role first f log) }
    ensures got { (role : Role) (first : ℕ) (f : Flow) (p : Packet) (log : Log) → flow_got role p ≡ f
        → is_dropped role (cid_of first log) p.header ≡ false
        → heard_of role first f (GotPacket p ∷ log) ≡ and_then (Got p) (heard_of role first f log) }
    ensures dropped { (role : Role) (first : ℕ) (f : Flow) (p : Packet) (log : Log) → is_dropped role (cid_of first log) p.header ≡ true
        → is_request p ≡ false → heard_of role first f (GotPacket p ∷ log) ≡ heard_of role first f log }
    ensures ended { (role : Role) (first : ℕ) (f : Flow) (p : Packet) (log : Log) → flow_got role p ≡ f
        → is_dropped role (cid_of first log) p.header ≡ true → is_request p ≡ true → heard_of role first f (GotPacket p ∷ log) ≡ [] }
    ensures other { (role : Role) (first : ℕ) (f : Flow) (entry : LogEntry) (log : Log) → is_about role f entry ≡ false
        → heard_of role first f (entry ∷ log) ≡ heard_of role first f log }
    ensures reset { (role : Role) (first cid : ℕ) (f : Flow) (log : Log)
        → heard_of role first f (Mark cid ∷ log) ≡ heard_of role first f log }
    ensures all_put { (role : Role) (first : ℕ) (f : Flow) (p : Packet) (log : Log) → IsAllHeard role first f log
        → IsAllHeard role first f (PutPacket p ∷ log) }
    ensures all_got { (role : Role) (first : ℕ) (f : Flow) (p : Packet) (log : Log) → is_dropped role (cid_of first log) p.header ≡ false
        → IsAllHeard role first f log → IsAllHeard role first f (GotPacket p ∷ log) }
{}

/// Each packet that an end puts keeps its log fair, where it matches it: the payload put, also that of this packet, is within the credit
/// that was heard, and so on (Virtio 1.2, section 5.10.6.3).
pub fn law_of_fairness()
    ensures opens { (role : Role) (first cid : ℕ) (f : Flow) (kind : Kind) (part : Ends) (log : Log) → Matches role first part log
        → IsFairLog role log → IsNextFlow role f part
        → IsFairLog role (PutPacket (request_on role cid f kind) ∷ log) }
    ensures sends { (role : Role) (first cid : ℕ) (f : Flow) (e : ConnectionEnd) (payload : List ℕ) (part : Ends) (log : Log)
        → Matches role first part log → IsFairLog role log → HasEnd f e part → CanSend e (length payload)
        → FitsMessage e (puts (history_of role f log)) (length payload)
        → IsFairLog role (PutPacket (payload_on role cid f e payload) ∷ log) }
    ensures pays { (role : Role) (first cid : ℕ) (f : Flow) (e : ConnectionEnd) (what : Owed) (part : Ends) (log : Log)
        → Matches role first part log → IsFairLog role log → HasEnd f e part → owes_of e ≡ Some what
        → IsFairLog role (PutPacket (owed_on role cid f e what) ∷ log) }
    ensures replies { (role : Role) (first cid : ℕ) (r : Reply) (rest : List Reply) (part : Ends) (log : Log) → Matches role first part log
        → IsFairLog role log → part.replies ≡ r ∷ rest → IsFairLog role (PutPacket (reply_on role cid r) ∷ log) }
{}

/// A packet that keeps the log fair comes in order, and its fields fit; it is a REQUEST where nothing passed on its flow before. A
/// connection doesn't refuse it where no packet of the flow was dropped, and the driver none of the host's. It has room for its payload in
/// any case (Virtio 1.2, sections 5.10.6.3 and 5.10.6.5).
pub fn law_of_fair_packets()
    ensures in_order { (role : Role) (first : ℕ) (p : Packet) (log : Log) → let f = flow_got role p in IsFairOn role f (GotPacket p ∷ log)
        → IsInOrder (side_of role f) (heard_of role first f log) p }
    ensures fits { (role : Role) (p : Packet) (log : Log) → IsFairOn role (flow_got role p) (GotPacket p ∷ log) → IsTaken p }
    ensures asks { (role : Role) (p : Packet) (log : Log) → let f = flow_got role p in IsFairOn role f (GotPacket p ∷ log)
        → is_empty (history_of role f log) ≡ true → is_request p ≡ true }
    ensures never_refused { (role : Role) (first : ℕ) (p : Packet) (e : ConnectionEnd) (part : Ends) (log : Log)
        → let f = flow_got role p in
        Matches role first part log → HasEnd f e part → IsFairOn role f (GotPacket p ∷ log) → IsAllHeard role first f log
        → is_refused (verdict_of e p.header) ≡ false }
    ensures driver { (first : ℕ) (p : Packet) (e : ConnectionEnd) (part : Ends) (log : Log) → let f = flow_got Driver p in
        Matches Driver first part log → HasEnd f e part → p.header.src_cid ≡ HOST_CID → IsFairOn Driver f (GotPacket p ∷ log)
        → is_refused (verdict_of e p.header) ≡ false }
    ensures no_overrun { (role : Role) (first : ℕ) (p : Packet) (e : ConnectionEnd) (part : Ends) (log : Log) → let f = flow_got role p in
        Matches role first part log → HasEnd f e part → IsFairLog role (GotPacket p ∷ log)
        → is_overrun (verdict_of e p.header) ≡ false }
{}

/// The table of an end that matches its log. No flow stands twice in it, nor among those that are kept. The flows of its connections that
/// have begun are exactly those that the log left open, less those to which an RST is owed as a reply; the others ask for their flows and
/// have not put their REQUEST. All of the driver's have begun, and right after a transport reset none has. One that has begun follows what
/// was heard on its flow; on that of a new one nothing is awaited.
pub fn law_of_the_table()
    ensures once { (role : Role) (first : ℕ) (part : Ends) (log : Log) → Matches role first part log
        → AllPairs (λ d e. d.flow ≢ e.flow) part.entries }
    ensures kept_once { (role : Role) (first : ℕ) (part : Ends) (log : Log) → Matches role first part log → AreDistinct part.clean }
    ensures open { (role : Role) (first : ℕ) (part : Ends) (log : Log) (f : Flow) → Matches role first part log
        → is_among f (begun_flows part.entries) ≡ is_open role first f log (is_among f (replied part.replies)) }
    ensures all { (role : Role) (first : ℕ) (part : Ends) (log : Log) (f : Flow) → Matches role first part log
        → is_among f (flows_of part.entries)
        ≡ (is_open role first f log (is_among f (replied part.replies)) || is_among f (new_flows part.entries)) }
    ensures driver { (first : ℕ) (part : Ends) (log : Log) (f : Flow) → Matches Driver first part log
        → is_among f (flows_of part.entries) ≡ is_open Driver first f log (is_among f (replied part.replies)) }
    ensures closed { (role : Role) (first : ℕ) (part : Ends) (log : Log) (f : Flow) → Matches role first part log → HasNone f part
        → is_open role first f log (is_among f (replied part.replies)) ≡ false }
    ensures reset { (role : Role) (first cid : ℕ) (part : Ends) (log : Log) → Matches role first part (Mark cid ∷ log)
        → begun_flows part.entries ≡ [] }
    ensures begun { (first : ℕ) (part : Ends) (log : Log) (f : Flow) (e : ConnectionEnd) → Matches Driver first part log → HasEnd f e part
        → is_new e ≡ false }
    ensures follows { (role : Role) (first : ℕ) (part : Ends) (log : Log) (f : Flow) (e : ConnectionEnd) → Matches role first part log
        → HasEnd f e part → is_new e ≡ false
        → let h = heard_of role first f log in Follows (side_of role f) (puts h) (gots h) e }
    ensures new { (role : Role) (first : ℕ) (part : Ends) (log : Log) (f : Flow) (e : ConnectionEnd) → Matches role first part log
        → HasEnd f e part → is_new e ≡ true → (is_awaiting (heard_of role first f log) ≡ false) × IsAsking (side_of role f) e }
{}

/// In a flow table a step under a slot is one on the slot's flow: another value changes that flow's end, a removal takes the flow out,
/// and an insertion adds one behind all others. An entry's flow has one end, and a flow without an entry none. An entry that is found is
/// there.
pub fn law_of_slots<T>()
    ensures changed { (end_of : T → ConnectionEnd) (t : Table T) (x : Entry T) (v : T) → IsTable t → Contains t.entries x
        → entries_of end_of (with_value t x.slot v) ≡ replaced x.flow (end_of v) (entries_of end_of t) }
    ensures removed { (end_of : T → ConnectionEnd) (t : Table T) (x : Entry T) → IsTable t → Contains t.entries x
        → entries_of end_of (without t x.slot) ≡ without_flow x.flow (entries_of end_of t) }
    ensures added { (end_of : T → ConnectionEnd) (t : Table T) (f : Flow) (v : T)
        → entries_of end_of (with_entry t f v) ≡ entries_of end_of t ++ record { flow = f; end = end_of v } ∷ [] }
    ensures one { (end_of : T → ConnectionEnd) (t : Table T) (x : Entry T) → IsTable t → Contains t.entries x
        → ends_of x.flow (entries_of end_of t) ≡ end_of x.value ∷ [] }
    ensures none { (end_of : T → ConnectionEnd) (t : Table T) (f : Flow) → entry_of t f ≡ None
        → ends_of f (entries_of end_of t) ≡ [] }
    ensures found { (test : Entry T → Bool) (xs : List (Entry T)) (x : Entry T) → find test xs ≡ Some x
        → Contains xs x × (test x ≡ true) }
{}

/// Driver and device over every order of their steps, each where it may happen, from a fresh pair on, transport resets and changes of the
/// guest's CID included. Both match their logs, both logs are fair, and each got what the other put first. So the driver's table is what
/// its log left open, and of the device's the connections that have begun. The driver refuses no packet of the host's, the device none that
/// it doesn't drop, and the device gets no more payload than it has room for.
pub fn law_of_both()
    ensures sound { (first guest_port host_port : ℕ) (xs : List Happening) → MayRun xs (start first guest_port host_port)
        → IsSound first (run xs (start first guest_port host_port)) }
    ensures driver_table { (first guest_port host_port : ℕ) (xs : List Happening) (f : Flow) → MayRun xs (start first guest_port host_port)
        → let w = (run xs (start first guest_port host_port)).driver in
        is_among f (flows_of w.part.entries) ≡ is_open Driver first f w.log (is_among f (replied w.part.replies)) }
    ensures device_table { (first guest_port host_port : ℕ) (xs : List Happening) (f : Flow) → MayRun xs (start first guest_port host_port)
        → let w = (run xs (start first guest_port host_port)).device in
        is_among f (begun_flows w.part.entries) ≡ is_open Device first f w.log (is_among f (replied w.part.replies)) }
    ensures driver_accepts { (first : ℕ) (p : Packet) (e : ConnectionEnd) (b : Both) → IsSound first b
        → IsNextPacket b.driver.log b.device.log p → p.header.src_cid ≡ HOST_CID → HasEnd (flow_got Driver p) e b.driver.part
        → is_refused (verdict_of e p.header) ≡ false }
    ensures device_accepts { (first guest_port host_port : ℕ) (xs : List Happening) (p : Packet) (e : ConnectionEnd)
        → MayRun xs (start first guest_port host_port) → let b = run xs (start first guest_port host_port) in
        IsNextPacket b.device.log b.driver.log p → HasEnd (flow_got Device p) e b.device.part
        → is_dropped Device b.device.part.cid p.header ≡ false → is_refused (verdict_of e p.header) ≡ false }
    ensures device_has_room { (first : ℕ) (p : Packet) (e : ConnectionEnd) (b : Both) → IsSound first b
        → IsNextPacket b.device.log b.driver.log p → HasEnd (flow_got Device p) e b.device.part
        → is_overrun (verdict_of e p.header) ≡ false }
{}

/// A flow that either end keeps to be used again: neither ring holds a packet of it, and the other end has no connection on it and owes it
/// no reply. No transport reset stood between its REQUEST and the marked RST that ended it.
pub fn law_of_kept_flows()
    ensures quiet { (first guest_port host_port : ℕ) (xs : List Happening) (role : Role) (f : Flow)
        → MayRun xs (start first guest_port host_port) → let b = run xs (start first guest_port host_port) in
        is_among f (at role b).part.clean ≡ true → IsQuietOn role f b }
    ensures clean { (first guest_port host_port : ℕ) (xs : List Happening) (role : Role) (f : Flow)
        → MayRun xs (start first guest_port host_port) → let b = run xs (start first guest_port host_port) in
        is_among f (at role b).part.clean ≡ true → phase_of role first f (at role b).log ≡ Clean }
    // So it is of any two ends that match their logs, which are fair, each of which got first what the other put.
    ensures two_ends { (first : ℕ) (role : Role) (f : Flow) (b : Both) → IsSound first b → is_among f (at role b).part.clean ≡ true
        → IsQuietOn role f b }
{}

/// A connection of the guest's may open and stand in both tables, and after a transport reset it stands in neither, and nothing is owed.
/// Where it is over cleanly instead, the guest keeps its flow and asks for it again, though its port was given.
pub fn example()
    ensures may { MayRun (opening ++ resetting) (start guest_cid FIRST_PORT ASSIGNED_FIRST) }
    ensures driver_has { HasEnd guest_flow live_end (run opening (start guest_cid FIRST_PORT ASSIGNED_FIRST)).driver.part }
    ensures device_has { HasEnd guest_flow (paid_of host_end Response) (run opening (start guest_cid FIRST_PORT ASSIGNED_FIRST)).device.part }
    ensures driver_left { (run (opening ++ resetting) (start guest_cid FIRST_PORT ASSIGNED_FIRST)).driver.part
        ≡ record { entries = []; replies = []; clean = []; next_port = 1025; cid = new_cid } }
    ensures device_left { (run (opening ++ resetting) (start guest_cid FIRST_PORT ASSIGNED_FIRST)).device.part
        ≡ record { entries = []; replies = []; clean = []; next_port = ASSIGNED_FIRST; cid = new_cid } }
    ensures again { MayRun (opening ++ closing ++ opening) (start guest_cid FIRST_PORT ASSIGNED_FIRST) }
    ensures kept { (run (opening ++ closing) (start guest_cid FIRST_PORT ASSIGNED_FIRST)).driver.part
        ≡ record { entries = []; replies = []; clean = guest_flow ∷ []; next_port = 1025; cid = guest_cid } }
    ensures again_driver { (run (opening ++ closing ++ opening) (start guest_cid FIRST_PORT ASSIGNED_FIRST)).driver.part
        ≡ record {
          entries = record { flow = guest_flow; end = live_end } ∷ [];
          replies = [];
          clean = [];
          next_port = 1025;
          cid = guest_cid;
        } }
    ensures again_device { HasEnd guest_flow (paid_of host_end Response)
        (run (opening ++ closing ++ opening) (start guest_cid FIRST_PORT ASSIGNED_FIRST)).device.part }
{}

/// Why the definitions say no less, by example. An end that has not put its REQUEST follows no history. Where a RESPONSE was dropped, the
/// payload after it is refused, though the log with it is fair. Where a second REQUEST is accepted on a flow while an RST is owed for the
/// first, the flow has a connection but isn't open. Where a REQUEST that is dropped ended nothing of what was heard, an end would tell more
/// forwarded than it heard, though the log is fair. A flow whose REQUEST was never put isn't asked for again. Where a guest that breaks the
/// rules puts a marked RST, a flow is kept that isn't clean by the log. A connection over which a transport reset stands is clean by what
/// was put and got, but not by its phase.
pub fn counterexamples()
    ensures asks { (kind : Kind) (alloc : ℕ) → Follows Asker [] [] (asked kind alloc) → ⊥ }
    ensures dropped { is_dropped Device guest_cid lost_response.header ≡ true }
    ensures taken { is_dropped Device guest_cid payload_after.header ≡ false }
    ensures fair { IsFairOn Device assigned_flow (GotPacket payload_after ∷ log_with_drop) }
    ensures refused { is_refused (verdict_of asking_end payload_after.header) ≡ true }
    ensures has_connection { is_among guest_flow (begun_flows after_two.entries) ≡ true }
    ensures not_open { is_open Device guest_cid guest_flow log_of_two (is_among guest_flow (replied after_two.replies)) ≡ false }
    ensures return_fair { IsFairOn Device guest_flow log_of_return }
    ensures return_beyond { IsWithin (heard_on Device guest_cid guest_flow log_of_return) → ⊥ }
    ensures return_within { IsWithin (heard_of Device guest_cid guest_flow log_of_return) }
    ensures unput_may { MayRun unput (start guest_cid FIRST_PORT ASSIGNED_FIRST) }
    ensures unput { IsNextFlow Device assigned_flow (run unput (start guest_cid FIRST_PORT ASSIGNED_FIRST)).device.part → ⊥ }
    ensures kept_falsely { is_among assigned_flow kept_falsely.clean ≡ true }
    ensures false_mark { phase_of Device guest_cid assigned_flow log_of_false_mark ≡ Over }
    ensures reset_fair { IsFairOn Driver guest_flow log_over_reset }
    ensures reset_clean { let h = history_of Driver guest_flow log_over_reset in IsClean (puts h) (gots h) }
    ensures reset_over { phase_of Driver guest_cid guest_flow log_over_reset ≡ Over }
    // A REQUEST that comes next after a marked RST that was got, and not put, may be accepted while a reply is owed.
    ensures mark_got { is_clean_rst guest_mark ≡ true }
    ensures mark_ignored { after_packet Device [] guest_mark guest_flow true (refused guest_flow Stream no_ends) ≡ refused guest_flow Stream
        no_ends }
    ensures mark_not_open { is_open Device guest_cid guest_flow log_of_mark (is_among guest_flow (replied after_two.replies)) ≡ false }
    // A packet that comes after a marked RST and before the next REQUEST meets an end that is to ask, which then counts as begun.
    ensures early_begun { is_among assigned_flow (begun_flows spoiled.entries) ≡ true }
    ensures early_not_open { is_open Device guest_cid assigned_flow log_of_early false ≡ false }
    ensures early_once { AsksOnce Asker (whole_of Device assigned_flow log_of_early) }
{}
