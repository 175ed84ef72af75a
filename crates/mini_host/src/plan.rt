// The calls of a host in memory, and those that are to fail.
ghost use Rattle.std.specs.Prelude.{◌≡◌, ◌≤◌, ◌++◌, ◌∷◌, [], not, OnOk, OnErr};
ghost use Rattle.cms_journal.specs.Causes.{Rose};
ghost use Rattle.mini_host.specs.Plan.{is_planned, next};

use cms_journal::Failed;
use std::alloc::{AllocError, Global};

/// How many calls were made, and which are to fail.
#[derive(Drop)]
pub struct Plan {
    /// the calls so far
    pub calls: u64,
    /// the numbers of those that are to fail, from 1
    pub failing: Vec<u64>,
}

impl Plan {
    /// A plan under which no call fails.
    pub fn new(alloc: Global) -> Self
        ensures calls { result.calls ≡ 0 }
        ensures failing { result.failing.items ≡ [] }
    {
        Plan {
            calls: 0,
            failing: Vec::new(alloc),
        }
    }

    /// The call with this number, from 1, is to fail.
    pub fn fail_at(&mut self, call: u64) -> Result<(), AllocError>
        ensures ok { OnOk result (self.new.failing.items ≡ self.old.failing.items ++ call ∷ []) }
        ensures err { OnErr result (self.new.failing.items ≡ self.old.failing.items) }
        ensures calls { self.new.calls ≡ self.old.calls }
    {
        self.failing.push(call)?;
        Ok(())
    }

    /// Counts a call, and says whether it is to be done.
    pub fn goes(&mut self) -> bool
        ensures goes { result ≡ not (is_planned self.old.failing.items (next self.old.calls)) }
        ensures calls { self.new.calls ≡ next self.old.calls }
        ensures failing { self.new.failing.items ≡ self.old.failing.items }
    {
        self.calls = self.calls.saturating_add(1);
        !self.failing.contains(&self.calls)
    }
}

/// Counts a failure.
pub fn counted(failures: &mut u64) -> Failed
    ensures later { failures.old ≤ failures.new }
    ensures rose { Rose failures.old failures.new }
{
    *failures = failures.saturating_add(1);
    Failed
}
