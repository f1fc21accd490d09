// Counters that go up by one, and stay at their last value.
ghost use Rattle.std.specs.Prelude.{◌≡◌, ◌≤◌};
ghost use Rattle.pf_io.specs.Faults.{one_more, Rose};

use crate::device::Failed;

// One more, but not past the last value.
pub fn next_count(count: u64) -> u64
    ensures { result ≡ one_more count }
{
    count.saturating_add(1)
}

// Counts a fault, and gives the answer that it causes.
pub fn count_fault(faults: &mut u64) -> Failed
    ensures value { faults.new ≡ one_more faults.old }
    ensures later { faults.old ≤ faults.new }
    ensures rose { Rose faults.old faults.new }
{
    *faults = next_count(*faults);
    Failed
}
