//! How many attempts each request of a script may make.
ghost use Rattle.std.specs.Prelude.{◌≡◌, ◌≤◌};

/// How many attempts a request may make: one at least.
#[derive(Clone, Copy, Debug, PartialEq, Eq)]
pub struct Retries {
    most: usize,
    ghost some: { 1 ≤ most },
}

impl Retries {
    /// So many.
    pub fn new(most: usize) -> Retries
        requires { 1 ≤ most }
        ensures { result.most ≡ most }
    {
        Retries { most }
    }

    /// How many they are.
    pub fn most(self) -> usize
        ensures value { result ≡ self.most }
        ensures some { 1 ≤ result }
    {
        self.most
    }
}
