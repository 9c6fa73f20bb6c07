//! What holds where nobody else changes the memory.
ghost use Rattle.std.specs.Prelude.{◌≡◌, ℕ, [], ◌∷◌};
ghost use Rattle.vs_guest_mem.specs.Memory.{Memory, after_access};
ghost use Rattle.vs_layout.specs.declared.entry.Desc.{Desc};
ghost use Rattle.vs_ring_plain.specs.{Accesses.over, Chain.{Chain, NoChain, Ring, ahead, piece_of, taking}, Still.{IsGiven, IsStill, index_in}};

/// An access of a memory that nobody else changes leaves its bytes as they are.
pub fn law_of_still_memory()
    ensures bytes { (m : Memory) → IsStill m → (after_access m).bytes ≡ m.bytes }
    ensures still { (m : Memory) → IsStill m → IsStill (after_access m) }
{}

/// In a memory that nobody else changes a chain of one descriptor is taken as it lies there, by three accesses; and where the index says
/// that none was given, none is found, by one access.
pub fn law_of_one_descriptor()
    ensures taken { (r : Ring) (taken head : ℕ) (d : Desc) (m : Memory) → IsStill m → IsGiven r taken head d m
        → over (taking r taken) m ≡ (Chain head (piece_of d ∷ []), after_access (after_access (after_access m))) }
    ensures none { (r : Ring) (taken : ℕ) (m : Memory) → IsStill m → ahead (index_in r m) taken ≡ 0
        → over (taking r taken) m ≡ (NoChain, after_access m) }
{}
