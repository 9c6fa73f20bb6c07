//! What one end of standard rings writes, the other reads.
ghost use Rattle.std.specs.Prelude.{◌≡◌, ◌+◌, ◌*◌, ℕ, Bool, List, [], ◌∷◌, Option, Some, length, min};
ghost use Rattle.vs_guest_mem.specs.Memory.{Memory, after_access, bytes_at};
ghost use Rattle.vs_layout.specs.declared.place.Areas.{Areas};
ghost use Rattle.vs_page.specs.declared.page.TheConstants.{PAGE_LEN};
ghost use Rattle.vs_ring_port.specs.declared.queue.Queue.{Queue};
ghost use Rattle.vs_ring_plain.specs.{Accesses.over, Chain.Chain, Chain.piece_of, Chain.taking, Still.IsStill};
ghost use Rattle.vs_plain_driver.specs.Queue.{DriverQueueState, desc_for, next_used, reaped_page};
ghost use Rattle.vs_plain_rings.specs.Posting.{CanPost, CanReap, idle_queue, posted, returned, ring_of};

/// Where the device took every page that was posted, and nobody else changes the memory, the page that the driver posts next is the next
/// chain: it is found with the page's one descriptor, and the page's bytes lie there (Virtio 1.2, sections 2.7.13 and 2.7.14).
pub fn law_of_posting()
    ensures chain { (queue : Queue) (n at id published reaped : ℕ) (pages : List (Option (List ℕ))) (rest : List ℕ) (areas : Areas)
        (page : List ℕ) (m : Memory) (indirect : Bool) → CanPost queue n at id published areas page m → IsStill m
        → let now = posted queue page areas (idle_queue n at pages id rest published reaped) m in
        over (taking (ring_of queue n areas m indirect) published) now
        ≡ (Chain id (piece_of (desc_for queue (at + PAGE_LEN * id) (length page)) ∷ []), after_access (after_access (after_access now))) }
    ensures bytes { (queue : Queue) (n at id published reaped : ℕ) (pages : List (Option (List ℕ))) (rest : List ℕ) (areas : Areas)
        (page : List ℕ) (m : Memory) → CanPost queue n at id published areas page m
        → bytes_at (posted queue page areas (idle_queue n at pages id rest published reaped) m) (at + PAGE_LEN * id) (length page) ≡ page }
{}

/// Where the driver reaped every page that was returned, and nobody else changes the memory, the chain that the device returns next is the
/// next page that comes back: that of the chain's descriptor, with the bytes that lie there, as many as the device told and 4,096 at most
/// (Virtio 1.2, sections 2.7.8 and 2.7.14).
pub fn law_of_returning()
    ensures used { (queue : Queue) (q : DriverQueueState) (at head len : ℕ) (areas : Areas) (page : List ℕ) (m : Memory) (indirect : Bool)
        → CanReap q at head len areas page m → IsStill m
        → next_used areas q (returned (ring_of queue q.n areas m indirect) q.reaped head len m) ≡ Some (head, page) }
    ensures page { (queue : Queue) (q : DriverQueueState) (at head len : ℕ) (areas : Areas) (page : List ℕ) (m : Memory) (indirect : Bool)
        → CanReap q at head len areas page m → IsStill m
        → let now = returned (ring_of queue q.n areas m indirect) q.reaped head len m in
        reaped_page areas q now (next_used areas q now) ≡ Some (bytes_at m (at + PAGE_LEN * head) (min len PAGE_LEN)) }
{}
