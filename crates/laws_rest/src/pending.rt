//! What the device holds of a connection is what the connection's end counts as unread.

ghost use Rattle.std.specs.Prelude.{◌≡◌, ◌≤◌, ◌++◌, ℕ, List, Some, false, length, true};
ghost use Rattle.vs_conn.specs.{End.{answering, asked, owes_of, paid_of, verdict_of, wanting_credit, with_payload_sent}, declared.end.Owed.Owed};
ghost use Rattle.vs_header.specs.declared.{Header.Header, Kind.Kind};
ghost use Rattle.vs_limits.specs.declared.TheConstants.{BUF_ALLOC};
ghost use Rattle.vs_device_parts.specs.{Connections.{after_shut, after_written, cut_off, new_connection}, State.DeviceConnection, Streams.to_write, Transmitting.heard};
ghost use Rattle.laws_device.specs.Honest.{HoldsBytes};
ghost use Rattle.laws_tables.specs.Drains.{delivered};
ghost use Rattle.laws_rest.specs.Pending.{IsExact};

/// Each step on a connection keeps it so, where the numbers fit: a packet that is heard, with its payload where that is delivered; what is
/// put; a write; a shutdown.
pub fn law_of_pending()
    ensures asks { (kind : Kind) (stream : ℕ) → IsExact (new_connection (asked kind BUF_ALLOC) stream true) }
    ensures answers { (kind : Kind) (h : Header) (stream : ℕ) → IsExact (new_connection (answering kind BUF_ALLOC h) stream false) }
    ensures hears { (c : DeviceConnection) (h : Header) (payload : List ℕ) → HoldsBytes c.end.credit (length c.pending)
        → length payload ≡ delivered (verdict_of c.end h) h.len → IsExact c
        → IsExact (record (heard h c) { pending = c.pending ++ payload }) }
    ensures pays { (c : DeviceConnection) (what : Owed) → owes_of c.end ≡ Some what → IsExact c
        → IsExact (record c { end = paid_of c.end what }) }
    ensures sends { (c : DeviceConnection) (n : ℕ) → IsExact c → IsExact (record c { end = with_payload_sent c.end n }) }
    ensures wants { (c : DeviceConnection) → IsExact c → IsExact (record c { end = wanting_credit c.end }) }
    ensures writes { (c : DeviceConnection) (n : ℕ) → HoldsBytes c.end.credit (length c.pending) → n ≤ length (to_write c) → IsExact c
        → IsExact (after_written n c) }
    ensures shuts { (c : DeviceConnection) (bits now : ℕ) → HoldsBytes c.end.credit (length c.pending) → IsExact c
        → IsExact (after_shut bits now c) }
    ensures cuts { (c : DeviceConnection) → IsExact (cut_off c) }
{}
