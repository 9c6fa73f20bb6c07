//! No wake-up is lost: laws of one index, over every list of accesses of its publisher and its consumer.

ghost use Rattle.std.specs.Prelude.{◌≡◌, ℕ, ◌+◌, ◌^◌, ◌<◌, ◌≤◌, true, false, List, [], ◌∷◌};
ghost use Rattle.vs_notify.specs.Machine.{Event, LoadWord, Look, Publish, StoreWord, Take, Wake, Free, Index, LosesNone, Owing, may_publish, run, run_unlooked, start};
ghost use Rattle.vs_notify.specs.{Words.vring_need_event, declared.{Consumer.TheVariants.{Resting, Working}, Suppression.{Suppression, TheVariants.{EventIndex, Flags}}}};
ghost use Rattle.vs_notify.specs.declared.TheConstants.{VIRTQ_USED_F_NO_NOTIFY};

/// After any list of accesses, in any order, no wake-up is lost: where the consumer rests, and something is published that it hasn't taken,
/// the publisher still has to load the word, or found since the consumer's look that a kick is needed. A ring has at most 32,768 entries;
/// the words tell the counts as long as it has fewer than 2^16.
pub fn law_of_wake_ups()
    ensures loses_none { (mode : Suppression) (size : ℕ) (events : List Event) → size < 2 ^ 16 → LosesNone (run mode size events start) }
    ensures in_flight { (mode : Suppression) (size : ℕ) (events : List Event) → let i = run mode size events start in
        (i.taken ≤ i.published) × (i.published ≤ i.taken + size) }
    ensures since_load { (mode : Suppression) (size : ℕ) (events : List Event) → let i = run mode size events start in
        (i.loaded ≤ i.published) × (i.published < i.loaded + 2 ^ 16) }
    // A publisher that loads the word after each store may publish whatever the ring has room for.
    ensures may_publish { (mode : Suppression) (size n : ℕ) (events : List Event) → size < 2 ^ 16 → let i = run mode size events start in
        i.publisher ≡ Free → 1 ≤ n → i.published + n ≤ i.taken + size → may_publish size n i ≡ true }
{}

/// A consumer that rests without its second look can lose a wake-up: after these accesses it rests, an entry is published that it hasn't
/// taken, the publisher owes nothing, and no kick was needed since the consumer loaded the index last.
pub fn law_of_one_look()
    ensures event_index { run_unlooked EventIndex 8 (Publish 1 ∷ LoadWord ∷ Take ∷ Publish 1 ∷ LoadWord ∷ StoreWord 1 ∷ []) start
        ≡ record { published = 2; loaded = 2; taken = 1; word = 1; publisher = Free; consumer = Resting; kicked = false } }
    ensures flags { run_unlooked Flags 8 (StoreWord VIRTQ_USED_F_NO_NOTIFY ∷ Publish 1 ∷ LoadWord ∷ StoreWord 0 ∷ []) start
        ≡ record { published = 1; loaded = 1; taken = 0; word = 0; publisher = Free; consumer = Resting; kicked = false } }
    ensures lost { (i : Index) → i.consumer ≡ Resting → i.taken < i.published → i.publisher ≡ Free → i.kicked ≡ false → LosesNone i → ⊥ }
{}

/// Why fewer than 2^16. In a ring of 2^16 entries the second look takes a full ring for an empty one, and a wake-up is lost. And where 2^16
/// were published since the publisher loaded the word last, the index shows what it showed then, and the formula asks for no kick.
pub fn law_of_size()
    ensures none_since_load { (event index : ℕ) → vring_need_event event index index ≡ false }
    ensures full_ring { run EventIndex 65536 (Publish 1 ∷ LoadWord ∷ StoreWord 0 ∷ Publish 65535 ∷ LoadWord ∷ Look ∷ []) start
        ≡ record { published = 65536; loaded = 65536; taken = 0; word = 0; publisher = Free; consumer = Resting; kicked = false } }
{}

/// The standard's formula, by example.
pub fn worked_needs()
    ensures the_next { vring_need_event 5 6 5 ≡ true }
    ensures a_later_one { vring_need_event 7 6 5 ≡ false }
    ensures one_before { vring_need_event 4 6 5 ≡ false }
    ensures past_wrap { vring_need_event 65535 0 65534 ≡ true }
    ensures beyond_wrap { vring_need_event 1 0 65534 ≡ false }
{}

/// Lists of accesses, and where they lead.
pub fn worked_runs()
    // The consumer found nothing, asks for the next entry and rests; the next entry needs a kick.
    ensures kicked { run EventIndex 8 (StoreWord 0 ∷ Look ∷ Publish 1 ∷ LoadWord ∷ []) start
        ≡ record { published = 1; loaded = 1; taken = 0; word = 0; publisher = Free; consumer = Resting; kicked = true } }
    // It goes on, takes the entry, and rests again.
    ensures rests_again { run EventIndex 8 (StoreWord 0 ∷ Look ∷ Publish 1 ∷ LoadWord ∷ Wake ∷ Take ∷ StoreWord 1 ∷ Look ∷ []) start
        ≡ record { published = 1; loaded = 1; taken = 1; word = 1; publisher = Free; consumer = Resting; kicked = false } }
    // It sees what was published between its two looks, and doesn't rest.
    ensures seen { run EventIndex 8 (Publish 1 ∷ LoadWord ∷ Take ∷ Publish 1 ∷ LoadWord ∷ StoreWord 1 ∷ Look ∷ []) start
        ≡ record { published = 2; loaded = 2; taken = 1; word = 1; publisher = Free; consumer = Working; kicked = false } }
    // While it works, its event index stays behind, and no kick is needed.
    ensures spared { run EventIndex 8 (Publish 1 ∷ LoadWord ∷ Take ∷ Publish 3 ∷ LoadWord ∷ Take ∷ Publish 1 ∷ LoadWord ∷ []) start
        ≡ record { published = 5; loaded = 5; taken = 2; word = 0; publisher = Free; consumer = Working; kicked = false } }
    // The index wraps.
    ensures wrapped { run EventIndex 8 (StoreWord 65535 ∷ Look ∷ Publish 1 ∷ Publish 1 ∷ LoadWord ∷ [])
        record { published = 65535; loaded = 65535; taken = 65535; word = 7; publisher = Free; consumer = Working; kicked = false }
        ≡ record { published = 65537; loaded = 65537; taken = 65535; word = 65535; publisher = Free; consumer = Resting; kicked = true } }
    // By flags: none while the consumer works, one after it has cleared them.
    ensures by_flags { run Flags 8
        (StoreWord VIRTQ_USED_F_NO_NOTIFY ∷ Publish 1 ∷ LoadWord ∷ Take ∷ StoreWord 0 ∷ Look ∷ Publish 1 ∷ LoadWord ∷ []) start
        ≡ record { published = 2; loaded = 2; taken = 1; word = 0; publisher = Free; consumer = Resting; kicked = true } }
    // No more is published than the ring has room for.
    ensures full { run Flags 2 (Publish 1 ∷ Publish 1 ∷ Publish 1 ∷ []) start
        ≡ record { published = 2; loaded = 0; taken = 0; word = 0; publisher = Owing; consumer = Working; kicked = false } }
{}
