//! The lines of a script as lists of events, so that each law of every list of events is one of every script.

ghost use Rattle.laws_world.specs.{World.{Beginning, World, opening}, Events.is_at_rest, Plays.{AreRight, Line, after, is_given_right, line, play, report, sent_by, turn_line}};
ghost use Rattle.laws_world.specs.Steps.{Leads, device_calls};
ghost use Rattle.std.specs.Prelude.{◌≡◌, ℕ, ◌++◌, true, List, None};
ghost use Rattle.vs_device_parts.specs.{Receiving.{fill_rx_of, pay_event_of}, Streams.{pump_of, tick_of}, Transmitting.take_tx_of};
ghost use Rattle.vs_flow.specs.Connection.{Connection};
ghost use Rattle.vs_outside.specs.Host.{HostContents};
ghost use Rattle.laws_driver.specs.Carried.Senders.{sent_to};

/// Each call of the device's that a turn is made of, whole, is a list of events: a tick, taking a transmit packet, the owed event, the
/// writes to the streams, and the receive packets. A tick and the writes are so while the ring didn't fail; the others do nothing after a
/// failure.
pub fn law_of_device_calls()
    ensures tick { (now : ℕ) (w : World) → w.proxy.device.failed ≡ None →
        Leads w (device_calls (λ d. d) (tick_of now w.proxy.device) w) }
    ensures take_tx { (w : World) → Leads w (device_calls (λ r. r.0) (take_tx_of w.proxy.device) w) }
    ensures pay_event { (w : World) → Leads w (device_calls (λ r. r.0) (pay_event_of w.proxy.device) w) }
    ensures pump_out { (w : World) → w.proxy.device.failed ≡ None → Leads w (device_calls (λ r. r.state) (pump_of w.proxy.device) w) }
    ensures fill_rx { (w : World) → Leads w (device_calls (λ r. r.0) (fill_rx_of w.proxy.device) w) }
{}

/// A turn of the proxy's, whole, is a list of events: timeouts, the owed event, the packets that it takes, handshakes, what it writes to
/// streams and what it puts to the guest, each stage left out after a failure of the ring. Host calls that fail are among them.
pub fn law_of_turns()
    ensures { (now : ℕ) (w : World) → Leads w (turn_line now w).0 }
{}

/// Each line of a script is a list of events: a call of the guest's, a poll, a turn, a reset, what the host's programs do. Over them the
/// guest sends on each connection just what the answer says. Between two lines no page is staged.
pub fn law_of_lines()
    ensures events { (l : Line) (w : World) → is_at_rest w.rings.driver.staged ≡ true → is_given_right l ≡ true → Leads w (line l w).0 }
    ensures sends { (opened : ℕ → Connection) (c : Connection) (l : Line) (w : World)
        → sent_to opened c (line l w).0.journal ≡ sent_to opened c w.journal ++ sent_by opened c l w }
    ensures rests { (l : Line) (w : World) → is_at_rest w.rings.driver.staged ≡ true → is_at_rest (line l w).0.rings.driver.staged ≡ true }
{}

/// A script, from the world in which nothing has happened yet, is a list of events. So each law of every list of events is one of every
/// script, and of what it reports at its end.
pub fn law_of_scripts()
    ensures events { (how : Beginning) (host : HostContents) (ls : List Line) → AreRight ls →
        Leads (opening how host) (after ls (opening how host)) }
    ensures rests { (how : Beginning) (host : HostContents) (ls : List Line) → is_at_rest (after ls (opening how host)).rings.driver.staged ≡ true }
    ensures reported { (ls : List Line) (w : World) → (play ls w).1 ≡ report (after ls w) }
{}
