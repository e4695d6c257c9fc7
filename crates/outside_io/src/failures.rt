//! Which calls of an in-memory object fail, and its counts.
ghost use Rattle.std.specs.Prelude.{◌≡◌, List, ℕ};
ghost use Rattle.outside_io.specs.Counts.{raised};

/// Calls are numbered from 1; the listed ones fail.
#[derive(Drop)]
pub struct Failures {
    pub listed: Vec<u64>,
    pub calls: u64,
    pub faults: u64,
}

impl Failures {
    ghost use Rattle.outside_io.specs.Failures.{IsFresh, next_fails};

    /// Starts with no call made.
    pub fn make(listed: Vec<u64>) -> Self
        ensures { IsFresh result listed.items }
    {
        Failures {
            listed,
            calls: 0,
            faults: 0,
        }
    }

    /// Counts the next call, and returns whether it is listed.
    pub fn next_call(&mut self) -> bool
        ensures listed { result ≡ next_fails self.old }
        ensures list { self.new.listed.items ≡ self.old.listed.items }
        ensures calls { self.new.calls ≡ raised 1 self.old.calls }
        ensures faults { self.new.faults ≡ self.old.faults }
    {
        self.calls = self.calls.saturating_add(1);
        self.listed.contains(&self.calls)
    }

    /// Counts a fault.
    pub fn count_fault(&mut self)
        ensures list { self.new.listed.items ≡ self.old.listed.items }
        ensures calls { self.new.calls ≡ self.old.calls }
        ensures faults { self.new.faults ≡ raised 1 self.old.faults }
    {
        self.faults = self.faults.saturating_add(1);
    }
}
