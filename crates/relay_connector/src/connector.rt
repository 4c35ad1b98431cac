//! The connector: it hands out links to peers, and takes each of them back.
ghost use Rattle.std.specs.Prelude.{◌≡◌, ℕ, ◌+◌, ◌<◌, ◌≤◌, List, [], ◌∷◌, Option, Ok, Err, is_ok, if◌then◌else◌, IfOk, IfErr, OnOk};
ghost use Rattle.relay_connector.specs.declared.connector.Returned.{Returned};
ghost use Rattle.relay_connector.specs.declared.upstream.Upstream.{Upstream};
ghost use Rattle.relay_tasks.specs.declared.fault.Fault.{Fault};
ghost use Rattle.relay_links.specs.Count.{last_count, up, Rose};
ghost use Rattle.relay_links.specs.Told.{more, Gains};
ghost use Rattle.relay_links.specs.Link.{IsHandedOut};
ghost use Rattle.relay_connector.specs.Connector.{Offer, Takes, handed, IsConnectFault};
ghost use Rattle.relay_connector.specs.Upstream.{IsHandedOver, upstream_state, upstream_start};

use crate::upstream::Upstream;
use relay_links::ByteLink;
use relay_messages::{CustomLink, MessageLink};
use relay_tasks::{Fault, Peer};

/// A link as it was handed back: the peer that it is for, the link, and whether it may be used
/// again.
#[derive(Drop)]
pub struct Returned<L> {
    pub peer: Peer,
    pub link: L,
    pub keep: bool,
}

/// The links of a connector, of whatever they carry.
pub type LinkOf<K> = Upstream<
    <K as Connector>::Byte,
    <K as Connector>::Message,
    <K as Connector>::Custom,
>;

/// Hands out links and takes them back. It means the list of the links handed back; what it has for
/// the calls to come, links and faults in order, where it tells that; the faults that its calls
/// answered, where it tells them; how many of its links are out, how many of its calls failed, and
/// how often it was told to prefer HTTP/1.
pub trait Connector {
    /// Its links of bytes.
    type Byte: ByteLink;

    /// Its links of HTTP/2.
    type Message: MessageLink;

    /// Its links of custom protocols.
    type Custom: CustomLink;

    ghost returned: { Self → Option (List (Returned (Upstream Self.Byte Self.Message Self.Custom))) };

    ghost stock: { Self → Option (List Offer) };

    ghost refusals: { Self → Option (List Fault) };

    ghost out: { Self → ℕ };

    ghost fault_count: { Self → ℕ };

    ghost preferred: { Self → ℕ };

    ghost unexpected: { Self → ℕ };

    /// A link to the peer, and whether it had been used before. A fault is of the kind `Connect`,
    /// and the count of faults rose then. Where it told what it has, the answer was one to the
    /// first of that, and past the last there are faults alone.
    fn get(
        &mut self,
        peer: &Peer,
    ) -> Result<(Upstream<Self::Byte, Self::Message, Self::Custom>, bool), Fault>
        ensures handed { IfOk result (λ got. IsHandedOut
            (upstream_state Self.Byte.state Self.Message.state Self.Custom.state got.0)
            (upstream_start Self.Byte.start Self.Message.start Self.Custom.start got.0) got.1) }
        ensures over { IfOk result (λ got. IsHandedOver Self.Byte.state Self.Byte.start
            Self.Message.state Self.Message.start Self.Custom.state Self.Custom.start
            got.0 got.1) }
        ensures out { out self.new ≡ (if is_ok result then out self.old + 1 else out self.old) }
        ensures returned { returned self.new ≡ returned self.old }
        ensures first { IfOk result (λ got. Takes (stock self.old) (Ok (handed
            (upstream_start Self.Byte.start Self.Message.start Self.Custom.start got.0)) ∷ [])
            (stock self.new)) }
        ensures foretold { IfErr result (λ fault.
            Takes (stock self.old) (Err fault ∷ []) (stock self.new)) }
        ensures calm { OnOk result (refusals self.new ≡ refusals self.old) }
        ensures refused { IfErr result (λ fault.
            Gains (refusals self.old) (fault ∷ []) (refusals self.new)) }
        ensures no_fault { OnOk result (fault_count self.new ≡ fault_count self.old) }
        ensures fault { IfErr result IsConnectFault }
        ensures rose { IfErr result (λ _. Rose (fault_count self.old) (fault_count self.new)) }
        ensures fits { (fault_count self.old ≤ last_count) × (fault_count self.new ≤ last_count) }
        ensures preferred { preferred self.new ≡ preferred self.old };

    /// Takes back a link that was handed out. It takes no memory.
    fn release(
        &mut self,
        peer: Peer,
        link: Upstream<Self::Byte, Self::Message, Self::Custom>,
        keep: bool,
    )
        requires { 0 < out self.old }
        ensures out { out self.new + 1 ≡ out self.old }
        ensures returned { returned self.new
            ≡ more (returned self.old) (record { peer = peer; link = link; keep = keep } ∷ []) }
        ensures stock { stock self.new ≡ stock self.old }
        ensures refusals { refusals self.new ≡ refusals self.old }
        ensures faults { fault_count self.new ≡ fault_count self.old }
        ensures preferred { preferred self.new ≡ preferred self.old };

    /// Notes that the peer is to be spoken to over HTTP/1 from now on; the count of such calls
    /// stands still at its last value.
    fn prefer_h1(&mut self, peer: &Peer)
        ensures preferred { preferred self.new ≡ up (preferred self.old) }
        ensures out { out self.new ≡ out self.old }
        ensures returned { returned self.new ≡ returned self.old }
        ensures stock { stock self.new ≡ stock self.old }
        ensures refusals { refusals self.new ≡ refusals self.old }
        ensures faults { fault_count self.new ≡ fault_count self.old };

    /// How many of the connections that it kept were found to have sent bytes that nobody had asked
    /// for.
    fn unexpected_data_connection_count(&self) -> u64
        ensures { result ≡ unexpected self.now };

    /// How many calls failed; the count stands still at its last value.
    fn faults(&self) -> u64
        ensures { result ≡ fault_count self.now };
}
