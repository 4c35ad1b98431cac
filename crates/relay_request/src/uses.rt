//! How often the links of an exchange were asked, as they tell it.
ghost use Rattle.std.specs.Prelude.{◌≡◌, ◌≤◌, ◌⊎◌, ◌↔◌, IsTrue};
ghost use Rattle.relay_links.specs.Count.{last_count, Rose};
ghost use Rattle.relay_hooked.specs.Head.{link_of};
ghost use Rattle.relay_request.specs.Reuse.{has_risen};

use relay_h1::Connection;
use relay_hooked::HookedExchange;
use relay_links::ByteLink;

/// The counts of uses of both links of an exchange.
#[derive(Clone, Copy)]
pub struct Uses {
    client: u64,
    upstream: u64,
}

impl Uses {
    /// As they stand.
    pub fn of<D: ByteLink, U, L: ByteLink>(
        client: &Connection<D, U>,
        exchange: &HookedExchange<L>,
    ) -> Uses
        ensures { result ≡ record {
          client = (D.state client.now.link).used;
          upstream = (L.state (link_of exchange.now)).used;
        } }
    {
        Uses {
            client: client.link().used(),
            upstream: exchange.link().used(),
        }
    }

    /// Whether one of both has risen since then.
    pub fn have_risen(self, now: Uses) -> bool
        ensures rose { IsTrue result
            ↔ (Rose self.client now.client ⊎ Rose self.upstream now.upstream) }
        ensures client_fits { self.client ≤ last_count }
        ensures upstream_fits { self.upstream ≤ last_count }
    {
        has_risen(self.client, now.client) || has_risen(self.upstream, now.upstream)
    }
}

/// Whether a count has risen. One that stands at its last value counts as risen.
pub fn has_risen(before: u64, after: u64) -> bool
    ensures exact { result ≡ has_risen before after }
    ensures rose { IsTrue result ↔ Rose before after }
    ensures fits { before ≤ last_count }
{
    after > before || after == u64::MAX
}
