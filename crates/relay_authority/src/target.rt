//! The authority that a raw request target names (RFC 9112, section 3.2; RFC 3986, section 3).
ghost use Rattle.std.specs.Prelude.{◌≡◌, ◌≤◌, length, option_copied};
ghost use Rattle.std.specs.List.{prefix_len};

/// Which heads are held to their Host: those of all clients, but for custom ones.
#[derive(Clone, Copy, Debug, PartialEq, Eq)]
pub enum AuthorityPolicy {
    Standard,
    Custom,
}

/// What a raw target says of the authority: none, one that readers would disagree on, or one in
/// the absolute form. Scheme and authority are never empty.
#[derive(Clone, Copy)]
pub enum RawTargetAuthority<'a> {
    None,
    AmbiguousAuthority,
    Absolute {
        scheme: &'a [u8],
        authority: &'a [u8],
        path_and_query: &'a [u8],
    },
}

impl<'a> RawTargetAuthority<'a> {
    ghost use Rattle.relay_authority.specs.Target.{told_authority};

    /// The authority of the absolute form.
    pub fn authority(&self) -> Option<&'a [u8]>
        ensures { option_copied result ≡ told_authority self.now }
    {
        match self {
            RawTargetAuthority::None => None,
            RawTargetAuthority::AmbiguousAuthority => None,
            RawTargetAuthority::Absolute {
                scheme: _,
                authority,
                path_and_query: _,
            } => Some(*authority),
        }
    }
}
