//! The branches of a duplex: what one turn may do, in the order in which they are listed.
ghost use Rattle.std.specs.Prelude.{◌≡◌};
ghost use Rattle.relay_links.specs.Branch.{place_of};

/// What one turn of a duplex may do.
#[derive(Clone, Copy, Debug, PartialEq, Eq)]
pub enum Branch {
    UpWrite,
    DownWrite,
    UpTake,
    DownTake,
    DownDrop,
    DownEnd,
    DownClosed,
    UpRead,
    DownRead,
    UpFinish,
    DownFinish,
    MessageUp,
    MessageDown,
}

/// Every branch, in order.
pub const BRANCHES: [Branch; 13] = [
    Branch::UpWrite,
    Branch::DownWrite,
    Branch::UpTake,
    Branch::DownTake,
    Branch::DownDrop,
    Branch::DownEnd,
    Branch::DownClosed,
    Branch::UpRead,
    Branch::DownRead,
    Branch::UpFinish,
    Branch::DownFinish,
    Branch::MessageUp,
    Branch::MessageDown,
];

impl Branch {
    /// The place of the branch in the order, from 0 to 12.
    pub fn place(self) -> u16
        ensures { result ≡ place_of self }
    {
        self as u16
    }
}
