//! What holds of taking a chain, and worked examples.
ghost use Rattle.std.specs.Prelude.{codes, ◌≡◌, ℕ, ◌+◌, [], ◌∷◌, false, IsTrue, Some};
ghost use Rattle.vs_guest_mem.specs.Memory.{is_within};
ghost use Rattle.vs_layout.specs.Layout.{AreInside};
ghost use Rattle.vs_ring_plain.specs.{Accesses.{MakesAtMost, with_values}, Chain.{Ring, taking, Chain, NoChain, Failed, total_len}, Examples.{ring, word, desc, first_chain}};
ghost use Rattle.vs_ring_plain.specs.{Examples.first_chain_indirect, Pieces.{reading, spans}};
ghost use Rattle.vs_ring_port.specs.declared.failure.Failure.TheVariants.{AvailJump, HeadRange, Indirect, TxWritable, RxReadable, AddrRange, ChainLong, NextRange, TxShort};
ghost use Rattle.vs_ring_port.specs.declared.{failure.Failure.TheVariants.{RxSmall, EventSmall, IndirectNested, IndirectNext, IndirectLen}, queue.Queue.TheVariants.{Rx, Tx}};
ghost use Rattle.vs_ring_port.specs.declared.queue.Queue.TheVariants.{Event};

/// Where a queue of n places lies in the memory, taking a chain makes n + 3 accesses at most, and each of them lies there too.
pub fn taking_ends_inside_the_memory()
    ensures { (r : Ring) (taken : ℕ) → AreInside r.areas r.n record { at = r.base; len = r.size }
        → MakesAtMost (r.n + 3) (λ addr len. IsTrue (is_within r.base r.size addr len)) (taking r taken) }
{}

/// The header of a packet whose chain has pieces of 20, 24 and 7 bytes is read by two accesses, and the five bytes `hello` behind it by one.
pub fn chain_read()
    ensures header { spans (record { addr = 8192; len = 20 } ∷ record { addr = 9000; len = 24 } ∷ record { addr = 9500; len = 7 } ∷ []) 0 44
        ≡ record { addr = 8192; len = 20 } ∷ record { addr = 9000; len = 24 } ∷ [] }
    ensures payload { spans (record { addr = 8192; len = 20 } ∷ record { addr = 9000; len = 24 } ∷ record {
      addr = 9500;
      len = 7;
    } ∷ []) 44 5
        ≡ record { addr = 9500; len = 5 } ∷ [] }
    ensures hello { with_values (reading (spans (record { addr = 8192; len = 20 } ∷ record { addr = 9000; len = 24 } ∷ record {
      addr = 9500;
      len = 7;
    } ∷ []) 44 5) []) (codes "hello" ∷ []) ≡ Some (codes "hello") }
    ensures bytes { with_values (reading (record { addr = 8192; len = 2 } ∷ record { addr = 9000; len = 1 } ∷ []) [])
        ((1 ∷ 2 ∷ []) ∷ (3 ∷ []) ∷ [])
        ≡ Some (1 ∷ 2 ∷ 3 ∷ []) }
{}

/// Chains that are taken, in queues of 8 places.
pub fn chains_taken()
    ensures three_pieces { first_chain Tx (desc 8192 20 1 1 ∷ desc 9000 24 1 2 ∷ desc 9500 7 0 0 ∷ [])
        ≡ Some (Chain 0 (record { addr = 8192; len = 20 } ∷ record { addr = 9000; len = 24 } ∷ record { addr = 9500; len = 7 } ∷ [])) }
    ensures readable { total_len (record { addr = 8192; len = 20 } ∷ record { addr = 9000; len = 24 } ∷ record {
      addr = 9500;
      len = 7;
    } ∷ []) ≡ 51 }
    ensures none_given { with_values (taking (ring Tx false) 5) (word 5 ∷ []) ≡ Some NoChain }
    ensures index_wraps { with_values (taking (ring Tx false) 65534) (word 65535 ∷ word 3 ∷ desc 8192 44 0 0 ∷ [])
        ≡ Some (Chain 3 (record { addr = 8192; len = 44 } ∷ [])) }
    ensures table { first_chain_indirect Rx (desc 8192 32 4 0 ∷ desc 12288 40 3 1 ∷ desc 16384 5 2 0 ∷ [])
        ≡ Some (Chain 0 (record { addr = 12288; len = 40 } ∷ record { addr = 16384; len = 5 } ∷ [])) }
{}

/// Rules that are broken, in queues of 8 places.
pub fn rules_broken()
    ensures avail_jump { with_values (taking (ring Tx false) 65535) (word 65534 ∷ []) ≡ Some (Failed (AvailJump 65535 65534)) }
    ensures avail_jump_from_none { with_values (taking (ring Tx false) 0) (word 9 ∷ []) ≡ Some (Failed (AvailJump 0 9)) }
    ensures head_range { with_values (taking (ring Tx false) 0) (word 1 ∷ word 8 ∷ []) ≡ Some (Failed (HeadRange 8 8)) }
    ensures indirect { first_chain Tx (desc 8192 44 4 0 ∷ []) ≡ Some (Failed (Indirect 0)) }
    ensures tx_writable { first_chain Tx (desc 8192 44 2 0 ∷ []) ≡ Some (Failed (TxWritable 0)) }
    ensures rx_readable { first_chain Event (desc 8192 3 0 0 ∷ []) ≡ Some (Failed (RxReadable 0)) }
    ensures addr_range { first_chain Tx (desc 69600 44 0 0 ∷ []) ≡ Some (Failed (AddrRange 69600 44)) }
    ensures next_range { first_chain Tx (desc 8192 44 1 8 ∷ []) ≡ Some (Failed (NextRange 8 8)) }
    ensures chain_long { first_chain Tx (desc 8192 44 1 1 ∷ desc 8192 44 1 2 ∷ desc 8192 44 1 3 ∷ desc 8192 44 1 4 ∷ desc 8192 44 1 5
        ∷ desc 8192 44 1 6 ∷ desc 8192 44 1 7 ∷ desc 8192 44 1 0 ∷ []) ≡ Some (Failed (ChainLong 8)) }
    ensures tx_short { first_chain Tx (desc 8192 43 0 0 ∷ []) ≡ Some (Failed (TxShort 43)) }
    ensures rx_small { first_chain Rx (desc 8192 44 2 0 ∷ []) ≡ Some (Failed (RxSmall 44)) }
    ensures event_small { first_chain Event (desc 8192 3 2 0 ∷ []) ≡ Some (Failed (EventSmall 3)) }
    ensures indirect_next { first_chain_indirect Tx (desc 8192 40 5 1 ∷ []) ≡ Some (Failed (IndirectNext 0)) }
    ensures indirect_len { first_chain_indirect Tx (desc 8192 40 4 0 ∷ []) ≡ Some (Failed (IndirectLen 40)) }
    ensures indirect_nested { first_chain_indirect Tx (desc 8192 16 4 0 ∷ desc 8192 16 4 0 ∷ []) ≡ Some (Failed (IndirectNested 0)) }
    ensures next_range_of_table { first_chain_indirect Tx (desc 8192 32 4 0 ∷ desc 8192 44 1 2 ∷ []) ≡ Some (Failed (NextRange 2 2)) }
{}
