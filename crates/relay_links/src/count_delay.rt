//! A delay in memory: it counts, and waits for nothing.
ghost use Rattle.std.specs.Prelude.{◌≡◌};
ghost use Rattle.relay_links.specs.CountDelay.{delay_calls, delay_total};

use crate::delay::Delay;

/// Counts its calls and their milliseconds, and does not wait.
#[derive(Drop)]
pub struct CountDelay {
    calls: u64,
    total: u64,
}

impl CountDelay {
    /// A delay that nobody has called.
    pub fn new() -> CountDelay
        ensures calls { delay_calls result ≡ 0 }
        ensures total { delay_total result ≡ 0 }
    {
        CountDelay { calls: 0, total: 0 }
    }

    /// How often it was called.
    pub fn calls(&self) -> u64
        ensures { result ≡ delay_calls self.now }
    {
        self.calls
    }

    /// The sum of the milliseconds.
    pub fn total(&self) -> u64
        ensures { result ≡ delay_total self.now }
    {
        self.total
    }
}

impl Delay for CountDelay {
    ghost calls = { delay_calls };

    ghost total = { delay_total };

    fn delay(&mut self, millis: u64) {
        self.calls = self.calls.saturating_add(1);
        self.total = self.total.saturating_add(millis);
    }
}
