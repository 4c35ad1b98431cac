//! The shutdown watch: whether the server is to shut down.
ghost use Rattle.std.specs.Prelude.{◌≡◌, ℕ, ◌≤◌, IsTrue, false};
ghost use Rattle.relay_links.specs.Count.{last_count, Rose};

/// Says whether the server is to shut down. It means how often it said so.
pub trait ShutdownWatch {
    ghost sighted: { Self → ℕ };

    /// Whether a shutdown is seen. Each true raises the count.
    fn is_set(&mut self) -> bool
        ensures risen { IsTrue result → Rose (sighted self.old) (sighted self.new) }
        ensures same { result ≡ false → sighted self.new ≡ sighted self.old }
        ensures fits { (sighted self.old ≤ last_count) × (sighted self.new ≤ last_count) };

    /// How often it was seen; the count stands still at its last value.
    fn sightings(&self) -> u64
        ensures { result ≡ sighted self.now };
}
