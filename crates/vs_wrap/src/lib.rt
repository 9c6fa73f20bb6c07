//! Counters of 16 and 32 bits, which wrap: ring indices (Virtio 1.2, section 2.7) and the byte counts of credit
//! (section 5.10.6.3). A plain count is at most the distance that is stated away from another count that is known, so
//! what the counter shows decides it.
#![tactic(auto)]

ghost use Rattle.std.specs.Prelude.{◌≡◌, ℕ, ◌+◌, ◌-◌, ◌%◌, ◌^◌, ◌<◌, ◌≤◌};
ghost use Rattle.vs_wrap.specs.Wrap.{difference16, difference32, sum16, sum32, unwrap16, unwrap32};

/// The furthest that `unwrap16` looks: one less than the largest size of a ring (Virtio 1.2, section 2.7).
pub const REACH: u64 = 32_767;

/// What a 16-bit counter shows after `b` more, modulo 2^16.
pub fn add16(a: u16, b: u16) -> u16
    ensures exact { result ≡ sum16 a b }
    // It shows the plain sum of any two numbers that `a` and `b` show.
    ensures plain { (m n : ℕ) → m % 2 ^ 16 ≡ a → n % 2 ^ 16 ≡ b → (m + n) % 2 ^ 16 ≡ result }
{
    a.wrapping_add(b)
}

/// How far the 16-bit counter `a` has gone past the counter `b`, modulo 2^16.
pub fn sub16(a: u16, b: u16) -> u16
    ensures exact { result ≡ difference16 a b }
    // Of two numbers less than 2^16 apart, what their counters show gives how far apart they are.
    ensures plain { (m n : ℕ) → m % 2 ^ 16 ≡ a → n % 2 ^ 16 ≡ b
        → n ≤ m → m ≤ n + (2 ^ 16 - 1) → n + result ≡ m }
{
    a.wrapping_sub(b)
}

/// What a 32-bit counter shows after `b` more, modulo 2^32.
pub fn add32(a: u32, b: u32) -> u32
    ensures exact { result ≡ sum32 a b }
    // It shows the plain sum of any two numbers that `a` and `b` show.
    ensures plain { (m n : ℕ) → m % 2 ^ 32 ≡ a → n % 2 ^ 32 ≡ b → (m + n) % 2 ^ 32 ≡ result }
{
    a.wrapping_add(b)
}

/// How far the 32-bit counter `a` has gone past the counter `b`, modulo 2^32.
pub fn sub32(a: u32, b: u32) -> u32
    ensures exact { result ≡ difference32 a b }
    // Of two numbers less than 2^32 apart, what their counters show gives how far apart they are.
    ensures plain { (m n : ℕ) → m % 2 ^ 32 ≡ a → n % 2 ^ 32 ≡ b
        → n ≤ m → m ≤ n + (2 ^ 32 - 1) → n + result ≡ m }
{
    a.wrapping_sub(b)
}

/// The one number from `near` to `near` + `REACH` that a 16-bit counter shows as `word`. There has to be one, below
/// 2^64.
pub fn unwrap16(near: u64, word: u16) -> u64
    requires reach { unwrap16 near word ≤ near + REACH }
    requires fits { unwrap16 near word < 2 ^ 64 }
    ensures exact { result ≡ unwrap16 near word }
    ensures shown { result % 2 ^ 16 ≡ word }
    ensures within { (near ≤ result) × (result ≤ near + REACH) }
    ensures only { (n : ℕ) → n % 2 ^ 16 ≡ word → near ≤ n → n ≤ near + REACH → n ≡ result }
{
    let shown = (near % 65_536) as u16;
    near + u64::from(sub16(word, shown))
}

/// Laws of unwrapping. A count that has risen by less than 2^16 or 2^32 since `near` is the number that its counter
/// unwraps to; and whatever a counter shows, it unwraps to a number from `near` on, that it shows.
pub fn laws_of_unwrapping()
    ensures back16 { (near n : ℕ) → near ≤ n → n ≤ near + (2 ^ 16 - 1) → unwrap16 near (n % 2 ^ 16) ≡ n }
    ensures from16 { (near word : ℕ) → near ≤ unwrap16 near word }
    ensures shown16 { (near word : ℕ) → word < 2 ^ 16 → unwrap16 near word % 2 ^ 16 ≡ word }
    ensures back32 { (near n : ℕ) → near ≤ n → n ≤ near + (2 ^ 32 - 1) → unwrap32 near (n % 2 ^ 32) ≡ n }
    ensures from32 { (near word : ℕ) → near ≤ unwrap32 near word }
    ensures shown32 { (near word : ℕ) → word < 2 ^ 32 → unwrap32 near word % 2 ^ 32 ≡ word }
{}
