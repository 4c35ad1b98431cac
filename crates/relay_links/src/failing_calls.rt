//! Calls of which those with listed numbers fail.
ghost use Rattle.std.specs.Prelude.{◌≡◌};
ghost use Rattle.relay_links.specs.FailingCalls.{next_fails, after_call};

/// The numbers of the calls that fail, counted from 1, and how many calls there were; the count
/// stands still at its last value.
#[derive(Drop)]
pub struct FailingCalls {
    pub numbers: Vec<u64>,
    pub count: u64,
}

impl FailingCalls {
    /// No call was made.
    pub fn new(numbers: Vec<u64>) -> FailingCalls
        ensures { result ≡ record { numbers = numbers; count = 0 } }
    {
        FailingCalls { numbers, count: 0 }
    }

    /// Counts one more call, and says whether it fails.
    pub fn next_fails(&mut self) -> bool
        ensures exact { result ≡ next_fails self.old }
        ensures count { self.new ≡ after_call self.old }
    {
        self.count = self.count.saturating_add(1);
        self.numbers.contains(&self.count)
    }
}
