//! The delay between attempts.
ghost use Rattle.std.specs.Prelude.{◌≡◌, ℕ, ◌≤◌, ◌+◌, min};
ghost use Rattle.relay_links.specs.Count.{last_count, up};

/// Waits between attempts. It means the number of its calls and the sum of their milliseconds, each
/// standing still at the last value of a `u64`.
pub trait Delay {
    ghost calls: { Self → ℕ };

    ghost total: { Self → ℕ };

    /// Waits for that many milliseconds.
    fn delay(&mut self, millis: u64)
        ensures calls { calls self.new ≡ up (calls self.old) }
        ensures total { total self.new ≡ min (total self.old + millis) last_count }
        ensures fits { (calls self.old ≤ last_count) × (total self.old ≤ last_count) };
}
