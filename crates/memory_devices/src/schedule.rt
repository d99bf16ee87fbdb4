//! Which calls of a device fail, and how many were made.

ghost use Rattle.std.specs.Prelude.{◌≡◌, ◌≤◌};
ghost use Rattle.memory_devices.specs.Calls.{no_calls, fails_next, one_more, called};
ghost use Rattle.memory_devices.specs.Schedule.{calls_of};

/// The numbers of the calls that fail, and counts of calls and faults; both stand still at the greatest 64-bit
/// number.
#[derive(Drop)]
pub(crate) struct Schedule {
    failing: Vec<u64>,
    made: u64,
    faults: u64,
}

impl Schedule {
    /// No call was made yet, and these fail.
    pub(crate) fn new(failing: Vec<u64>) -> Self
        ensures { calls_of result ≡ no_calls failing.items }
    {
        Schedule {
            failing,
            made: 0,
            faults: 0,
        }
    }

    /// How many faults there were.
    pub(crate) fn count(&self) -> u64
        ensures { result ≡ (calls_of self.now).faults }
    {
        self.faults
    }

    /// Makes a call, and answers whether it fails.
    pub(crate) fn call(&mut self) -> bool
        ensures fails { result ≡ fails_next (calls_of self.old) }
        ensures made { calls_of self.new ≡ called (calls_of self.old) result }
        ensures rises { (calls_of self.old).faults ≤ (calls_of self.new).faults }
    {
        let fails = self.failing.contains(&self.made);
        self.made = self.made.saturating_add(1);
        if fails {
            self.fault();
        }
        fails
    }

    /// Counts a fault.
    pub(crate) fn fault(&mut self)
        ensures counted { calls_of self.new ≡ record (calls_of self.old) { faults = one_more (calls_of self.old).faults } }
        ensures rises { (calls_of self.old).faults ≤ (calls_of self.new).faults }
    {
        self.faults = self.faults.saturating_add(1);
    }
}
