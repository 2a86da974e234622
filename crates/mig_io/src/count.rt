// A count that ends at the largest `u64`.
ghost use Rattle.std.specs.Prelude.{◌≡◌, ◌^◌, ◌<◌, ◌≤◌};
ghost use Rattle.mig_io.specs.Counts.{Rose, raised};

/// A count from 0 to 2^64 - 1, where it stays.
#[derive(Clone, Copy, Debug)]
pub(crate) struct Count {
    number: u64,
    ghost bounded: { number < 2 ^ 64 },
}

impl Count {
    /// Nothing yet.
    pub(crate) fn new() -> Count
        ensures { result.number ≡ 0 }
    {
        Count { number: 0 }
    }

    /// One more.
    pub(crate) fn rise(&mut self)
        ensures { self.new.number ≡ raised self.old.number }
    {
        self.number = self.number.saturating_add(1);
    }
}
