// Calls that are to fail, and the counts of calls and of faults.
ghost use Rattle.std.specs.Prelude.{◌≡◌, ◌^◌, ◌<◌, ◌≤◌, ◌||◌, if◌then◌else◌};
ghost use Rattle.mig_io.specs.Counts.{raised, is_listed};

use crate::count::Count;
use mig_base::Seq;

/// Whether the call after this many is listed. Calls are numbered from 1.
fn listed_next(listed: &[u64], calls: u64) -> bool
    ensures { result ≡ is_listed listed.now calls }
{
    match calls.checked_add(1) {
        Some(number) => listed.contains(&number),
        None => false,
    }
}

/// The numbers of the calls that are to fail, how many calls there were, and how many faults.
#[derive(Drop)]
pub(crate) struct Faults {
    pub(crate) listed: Seq<u64>,
    pub(crate) calls: u64,
    pub(crate) count: Count,
}

impl Faults {
    /// No call yet, and no fault.
    pub(crate) fn new(listed: Seq<u64>) -> Faults
        ensures listed { result.listed ≡ listed }
        ensures calls { result.calls ≡ 0 }
        ensures count { result.count.number ≡ 0 }
    {
        Faults {
            listed,
            calls: 0,
            count: Count::new(),
        }
    }

    /// Counts a call, and answers whether it is a fault: it is listed, or spoilt by other causes. A fault is counted.
    pub(crate) fn fails(&mut self, spoilt: bool) -> bool
        ensures answer { result ≡ (is_listed self.old.listed self.old.calls || spoilt) }
        ensures called { self.new.calls ≡ raised self.old.calls }
        ensures counted { self.new.count.number ≡ (if result then raised self.old.count.number else self.old.count.number) }
        ensures listed { self.new.listed ≡ self.old.listed }
        ensures later { self.old.count.number ≤ self.new.count.number }
        ensures bounded { self.new.count.number < 2 ^ 64 }
    {
        let fails = listed_next(self.listed.as_slice(), self.calls) || spoilt;
        self.calls = self.calls.saturating_add(1);
        if fails {
            self.count.rise();
        }
        fails
    }
}
