//! Worked runs: what the definitions compute for some scripts.

ghost use Rattle.std.specs.Prelude.{◌≡◌, ◌++◌, codes};
ghost use Rattle.vs_hostile.specs.{Answer.hostile_of, Rows.{available_index_jumps, available_index_jumps_answer, address_out_of_memory, address_out_of_memory_answer, attack}};
ghost use Rattle.vs_hostile.specs.Rows.{failing, failing_reply, unknown_flow, length_changed, length_changed_answer, wrong_flows, wrong_flows_answer, pending_bytes, pending_bytes_answer};
ghost use Rattle.vs_hostile.specs.Rows.{failure_stays, failure_stays_answer};

/// Whole scripts, from their bytes to what they print: an available index that jumps, and an address outside the memory.
pub fn worked_scripts()
    ensures available_index_jumps { hostile_of available_index_jumps ≡ available_index_jumps_answer }
    ensures address_out_of_memory { hostile_of address_out_of_memory ≡ address_out_of_memory_answer }
{}

/// Each failure of the device with the values that show it (Virtio 1.2, section 2.7): of a script that writes the lines shown behind its
/// memory and its rings and then takes a turn. The first fault of a descriptor counts.
pub fn worked_failures()
    ensures avail_jump { hostile_of (attack (codes "index tx 9\n")) ≡ failing 1 (codes "AvailJump 0 9") }
    ensures head_range { hostile_of (attack (codes "give tx 0 8\nindex tx 1\n")) ≡ failing 2 (codes "HeadRange 8 8") }
    ensures indirect { hostile_of (attack (codes "desc tx 0 8192 44 4 0\nindex tx 1\n")) ≡ failing 2 (codes "Indirect 0") }
    ensures tx_writable { hostile_of (attack (codes "desc tx 0 8192 44 2 0\nindex tx 1\n")) ≡ failing 2 (codes "TxWritable 0") }
    ensures event_readable { hostile_of (attack (codes "reset 9\ndesc event 0 8192 4 0 0\nindex event 1\n")) ≡ failing 3 (codes "RxReadable 0") }
    ensures rx_readable { hostile_of (attack (unknown_flow ++ codes "desc rx 0 8192 4096 0 0\nindex rx 1\n")) ≡ failing_reply (codes "RxReadable 0") }
    ensures addr_range { hostile_of (attack (codes "desc tx 0 69600 44 0 0\nindex tx 1\n")) ≡ failing 2 (codes "AddrRange 69600 44") }
    ensures chain_long { hostile_of (attack (codes "desc tx 0 8192 44 1 0\nindex tx 1\n")) ≡ failing 2 (codes "ChainLong 8") }
    ensures next_range { hostile_of (attack (codes "desc tx 0 8192 44 1 8\nindex tx 1\n")) ≡ failing 2 (codes "NextRange 8 8") }
    ensures tx_short { hostile_of (attack (codes "desc tx 0 8192 43 0 0\nindex tx 1\n")) ≡ failing 2 (codes "TxShort 43") }
    ensures rx_small { hostile_of (attack (unknown_flow ++ codes "desc rx 0 8192 44 2 0\nindex rx 1\n")) ≡ failing_reply (codes "RxSmall 44") }
    ensures event_small { hostile_of (attack (codes "reset 9\ndesc event 0 8192 3 2 0\nindex event 1\n")) ≡ failing 3 (codes "EventSmall 3") }
    ensures payload_short { hostile_of (attack (codes "write 8216 0100000000000000\ndesc tx 0 8192 44 0 0\nindex tx 1\n")) ≡ failing 3 (codes "PayloadShort 1 0") }
    ensures indirect_first { hostile_of (attack (codes "desc tx 0 69600 44 7 8\nindex tx 1\n")) ≡ failing 2 (codes "Indirect 0") }
    ensures writable_before_range { hostile_of (attack (codes "desc tx 0 69600 44 3 8\nindex tx 1\n")) ≡ failing 2 (codes "TxWritable 0") }
    ensures range_before_next { hostile_of (attack (codes "desc tx 0 69600 44 1 8\nindex tx 1\n")) ≡ failing 2 (codes "AddrRange 69600 44") }
{}

/// Whole scripts: a length that is changed after its check, packets of flows that nobody has, and a connection that a packet ends.
pub fn worked_attacks()
    ensures length_changed { hostile_of length_changed ≡ length_changed_answer }
    ensures wrong_flows { hostile_of wrong_flows ≡ wrong_flows_answer }
    ensures pending_bytes { hostile_of pending_bytes ≡ pending_bytes_answer }
    ensures failure_stays { hostile_of failure_stays ≡ failure_stays_answer }
{}
