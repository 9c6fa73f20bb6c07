//! Of bytes that come one after another: how many there are, the first ones and the last ones.
#![tactic(auto)]

ghost use Rattle.std.specs.Prelude.{◌≡◌, ◌≤◌, ◌<◌, ◌+◌, ◌-◌, ◌++◌, ◌^◌, [], List, ℕ, drop, length, min, take};
ghost use Rattle.vs_excerpt.specs.Excerpt.{excerpt_of, front_of};

pub mod bytes_given;

/// The most bytes that are printed in full.
pub const MAX_IN_FULL: usize = 64;

/// Of more bytes, how many are printed of their beginning, and of their end.
pub const AT_EACH_END: usize = 16;

/// What is kept of bytes that come one after another. It takes no memory, however many they are.
#[derive(Clone, Copy)]
pub struct Excerpt {
    /// How many they are.
    pub count: u64,
    /// The first ones, and zeros where there are fewer.
    pub front: [u8; MAX_IN_FULL],
    /// The last ones, behind zeros where there are fewer.
    pub back: [u8; AT_EACH_END],
}

// Writes a piece over bytes from a place on, as far as they go.
fn write_from(front: &mut [u8], from: usize, piece: &[u8])
    requires { from ≤ length front.old }
    ensures { let n = min (length piece.now) (length front.old - from) in
        front.new ≡ take from front.old ++ (take n piece.now ++ drop (from + n) front.old) }
{
    let n = piece.len().min(front.len() - from);
    front[from..from + n].copy_from_slice(&piece[..n]);
}

// Writes a piece behind the first ones, of which there are so many so far.
fn write_front(front: &mut [u8], count: u64, piece: &[u8])
    requires { length front.old ≡ MAX_IN_FULL }
    ensures { (bytes : List ℕ) → front.old ≡ front_of bytes → count ≡ length bytes → front.new ≡ front_of (bytes ++ piece.now) }
{
    if count < MAX_IN_FULL as u64 {
        write_from(front, count as usize, piece);
    }
}

// Moves bytes to the left, so that a piece stands at their end.
fn write_back(back: &mut [u8], piece: &[u8])
    ensures { back.new ≡ drop (length piece.now) (back.old ++ piece.now) }
{
    let len = back.len();
    if len <= piece.len() {
        back.copy_from_slice(&piece[piece.len() - len..]);
    } else {
        back.rotate_left(piece.len());
        back[len - piece.len()..].copy_from_slice(piece);
    }
}

impl Excerpt {
    /// The excerpt of no byte.
    pub fn none() -> Excerpt
        ensures { result ≡ excerpt_of [] }
    {
        Excerpt {
            count: 0,
            front: [0; MAX_IN_FULL],
            back: [0; AT_EACH_END],
        }
    }

    /// The excerpt with a piece more.
    pub fn then(self, piece: &[u8]) -> Excerpt
        requires fits { self.count + length piece.now < 2 ^ 64 }
        ensures { (bytes : List ℕ) → self ≡ excerpt_of bytes → result ≡ excerpt_of (bytes ++ piece.now) }
    {
        let mut next = self;
        write_front(&mut next.front, self.count, piece);
        write_back(&mut next.back, piece);
        next.count = self.count + piece.len() as u64;
        next
    }
}
