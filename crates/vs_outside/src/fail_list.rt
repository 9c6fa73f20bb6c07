//! A list of calls that are to fail, for tests of what stands on a source, a sink or a host.
ghost use Rattle.std.specs.Prelude.{◌≡◌, ◌++◌, ◌∷◌, ◌-◌, [], map, filter, nat_lt, OnOk, OnErr};
ghost use Rattle.vs_outside.specs.Faults.{fails_next, counted_down};

use std::alloc::{AllocError, Global};
use std::marker::Model;

/// How many calls from now each call is that is to fail: 1 is the next one.
#[derive(Drop)]
pub struct FailList {
    calls: Vec<u64>,
}

impl Model for FailList {
    ghost use Rattle.std.specs.Prelude.{List, ℕ};

    ghost Value = { List ℕ };

    ghost view = { λ f. f.calls.items };
}

impl FailList {
    /// No call is to fail.
    pub fn new(alloc: Global) -> FailList
        ensures { result ≡ [] }
    {
        FailList {
            calls: Vec::new(alloc),
        }
    }

    /// The nth call from now is to fail too. Where there is no memory for it, all is as before.
    pub fn add(&mut self, n: u64) -> Result<(), AllocError>
        ensures ok { OnOk result (self.new ≡ self.old ++ n ∷ []) }
        ensures err { OnErr result (self.new ≡ self.old) }
    {
        self.calls.push(n)?;
        Ok(())
    }

    /// Whether the call that is made now is to fail. It is used up.
    #[inline(always)]
    pub fn call(&mut self) -> bool
        ensures answer { result ≡ fails_next self.old }
        ensures after { self.new ≡ counted_down self.old }
    {
        !self.calls.is_empty() && self.use_up()
    }

    // The same, where the list isn't empty.
    #[cold]
    fn use_up(&mut self) -> bool
        ensures answer { result ≡ fails_next self.old }
        ensures after { self.new ≡ counted_down self.old }
    {
        let fails = self.calls.contains(&1);
        keep_later(&mut self.calls);
        count_down(&mut self.calls);
        fails
    }
}

/// Keeps the calls that are later than the next one.
fn keep_later(calls: &mut Vec<u64>)
    ensures { calls.new.items ≡ filter (λ n. nat_lt 1 n) calls.old.items }
{
    calls.retain(|n| *n > 1);
}

/// Each call is one nearer.
fn count_down(calls: &mut Vec<u64>)
    ensures { calls.new.items ≡ map (λ n. n - 1) calls.old.items }
{
    for n in calls.iter_mut() {
        *n = n.saturating_sub(1);
    }
}
