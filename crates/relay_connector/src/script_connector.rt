//! A connector in memory that hands out listed links, and keeps each link that comes back.
ghost use Rattle.std.specs.Prelude.{◌≡◌, ◌+◌, ◌≤◌, ◌<◌, [], ◌∷◌, ◌++◌, drop, Some, Ok, Err, IfOk, IfErr, OnOk, IsOkUnless, is_ok, if◌then◌else◌, vec_len, vec_capacity};
ghost use Rattle.std.specs.VecDeque.{deque_len};
ghost use Rattle.relay_links.specs.Count.{last_count, Rose};
ghost use Rattle.relay_links.specs.Told.{Gains};
ghost use Rattle.relay_links.specs.Link.{IsHandedOut};
ghost use Rattle.relay_connector.specs.Connector.{AreNext, handed, IsConnectFault};
ghost use Rattle.relay_connector.specs.ScriptConnector.{AnswersGet, IsHandedScript, IsSameScript, any_state, any_start, refusal_of};

use crate::connector::{Connector, Returned};
use crate::upstream::Upstream;
use bytes::Bytes;
use relay_links::ScriptLink;
use relay_messages::{ScriptCustom, ScriptMessages};
use relay_tasks::{Fail, Fault, FaultKind, Peer, RetryType};
use std::alloc::Global;
use std::collections::VecDeque;

/// The fault past the last entry, and of an entry that wants a link to use again where none is.
const NOTHING_LEFT: Fault = Fault {
    kind: FaultKind::Connect,
    retry: RetryType::Decided(false),
};

/// A link in memory, of whatever it carries.
pub type AnyScript = Upstream<ScriptLink, ScriptMessages, ScriptCustom>;

/// An entry of a connector in memory: the name of its peer, its link, the mark of the fault that is
/// answered in place of the link, where there is one, and whether the link is handed out as used
/// before, in place of the link that came back last to be kept and was not used again yet.
#[derive(Drop)]
pub struct PeerScript {
    pub name: Bytes,
    pub link: AnyScript,
    pub connect: Option<RetryType>,
    pub again: bool,
}

/// A connector that answers each `get` by its next entry. The room for the links that come back,
/// and for the faults of its entries, is taken when it is made.
#[derive(Drop)]
pub struct ScriptConnector {
    entries: VecDeque<PeerScript>,
    returned: Vec<Returned<AnyScript>>,
    refused: Vec<Fault>,
    idle: usize,
    out: usize,
    faults: u64,
    preferred: u64,
    ghost room: { vec_len returned + out + deque_len entries ≤ vec_capacity returned },
    ghost refused_room: { vec_len refused + deque_len entries ≤ vec_capacity refused },
    ghost idle_came: { idle ≤ vec_len returned },
    ghost counted: { vec_len refused ≤ faults },
    ghost in_order: { 0 < deque_len entries → faults ≡ vec_len refused },
}

impl ScriptConnector {
    ghost use Rattle.relay_connector.specs.ScriptEntries.{links_returned, IsNew};

    /// A connector with these entries. It fails only when out of memory.
    pub fn new(alloc: Global, peers: Vec<PeerScript>) -> relay_tasks::Result<ScriptConnector>
        ensures ok { IfOk result (λ connector. IsNew connector peers.items) }
        ensures err { IsOkUnless result Fail.OutOfMemory }
    {
        let Ok(returned) = Vec::with_capacity(alloc, peers.len()) else {
            return Err(Fail::OutOfMemory);
        };
        let Ok(refused) = Vec::with_capacity(alloc, peers.len()) else {
            return Err(Fail::OutOfMemory);
        };
        Ok(ScriptConnector {
            entries: VecDeque::from(peers),
            returned,
            refused,
            idle: 0,
            out: 0,
            faults: 0,
            preferred: 0,
        })
    }

    /// The links that were handed back, in order.
    pub fn returned(&self) -> &[Returned<AnyScript>]
        ensures { result.now ≡ links_returned self.now }
    {
        self.returned.as_slice()
    }
}

impl Connector for ScriptConnector {
    type Byte = ScriptLink;

    type Message = ScriptMessages;

    type Custom = ScriptCustom;

    ghost use Rattle.relay_connector.specs.ScriptEntries.{next_entries, links_returned, links_idle, offers_left, faults_answered, links_out, gets_failed, times_preferred};

    ghost returned = { λ connector. Some (links_returned connector) };

    ghost stock = { λ connector. Some (offers_left connector) };

    ghost refusals = { faults_answered };

    ghost out = { links_out };

    ghost fault_count = { gets_failed };

    ghost preferred = { times_preferred };

    ghost unexpected = { λ _. 0 };

    fn get(&mut self, _peer: &Peer) -> Result<(AnyScript, bool), Fault>
        ensures handed { IfOk result (λ got.
            IsHandedOut (any_state got.0) (any_start got.0) got.1) }
        ensures over { IfOk result (λ got. IsHandedScript got.0 got.1) }
        ensures out { links_out self.new
            ≡ (if is_ok result then links_out self.old + 1 else links_out self.old) }
        ensures returned { links_returned self.new ≡ links_returned self.old }
        ensures first { IfOk result (λ got. AreNext (Ok (handed (any_start got.0)) ∷ [])
            (offers_left self.old) (offers_left self.new)) }
        ensures foretold { IfErr result (λ fault.
            AreNext (Err fault ∷ []) (offers_left self.old) (offers_left self.new)) }
        ensures calm { OnOk result (faults_answered self.new ≡ faults_answered self.old) }
        ensures refused { IfErr result (λ fault.
            Gains (faults_answered self.old) (fault ∷ []) (faults_answered self.new)) }
        ensures no_fault { OnOk result (gets_failed self.new ≡ gets_failed self.old) }
        ensures fault { IfErr result IsConnectFault }
        ensures rose { IfErr result (λ _. Rose (gets_failed self.old) (gets_failed self.new)) }
        ensures fits { (gets_failed self.old ≤ last_count) × (gets_failed self.new ≤ last_count) }
        ensures preferred { times_preferred self.new ≡ times_preferred self.old }
        ensures entry { AnswersGet (next_entries self.old) (links_idle self.old) result
            (links_idle self.new) }
        ensures next { next_entries self.new ≡ drop 1 (next_entries self.old) }
    {
        let faults = self.faults;
        let Some(entry) = self.entries.pop_front() else {
            self.faults = faults.saturating_add(1);
            return Err(NOTHING_LEFT);
        };
        if let Some(fault) = refusal(&entry, self.idle) {
            self.faults = faults.saturating_add(1);
            match self.refused.push(fault) {
                Ok(()) => return Err(fault),
                Err(_) => unreachable!(),
            }
        }
        self.out += 1;
        let mut entry = entry;
        if entry.again {
            self.idle -= 1;
        }
        hand_out(&mut entry.link, entry.again);
        Ok((entry.link, entry.again))
    }

    fn release(&mut self, peer: Peer, link: AnyScript, keep: bool)
        requires { 0 < links_out self.old }
        ensures out { links_out self.new + 1 ≡ links_out self.old }
        ensures returned { links_returned self.new
            ≡ links_returned self.old ++ record { peer = peer; link = link; keep = keep } ∷ [] }
        ensures stock { offers_left self.new ≡ offers_left self.old }
        ensures refusals { faults_answered self.new ≡ faults_answered self.old }
        ensures faults { gets_failed self.new ≡ gets_failed self.old }
        ensures preferred { times_preferred self.new ≡ times_preferred self.old }
        ensures next { next_entries self.new ≡ next_entries self.old }
        ensures idle { links_idle self.new
            ≡ (if keep then links_idle self.old + 1 else links_idle self.old) }
    {
        self.out -= 1;
        match self.returned.push(Returned { peer, link, keep }) {
            Ok(()) => {}
            Err(_) => unreachable!(),
        }
        if keep {
            self.idle += 1;
        }
    }

    fn prefer_h1(&mut self, _peer: &Peer) {
        self.preferred = self.preferred.saturating_add(1);
    }

    fn unexpected_data_connection_count(&self) -> u64 {
        0
    }

    fn faults(&self) -> u64 {
        self.faults
    }
}

/// The fault of an entry where so many links are idle, or `None` where its link is handed out.
fn refusal(entry: &PeerScript, idle: usize) -> Option<Fault>
    ensures { result ≡ refusal_of entry.now.connect entry.now.again idle }
{
    match entry.connect {
        Some(retry) => Some(Fault {
            kind: FaultKind::Connect,
            retry,
        }),
        None if entry.again && idle == 0 => Some(NOTHING_LEFT),
        None => None,
    }
}

/// Notes where the link stands as it is handed out, and whether it had been used before.
fn hand_out(link: &mut AnyScript, reused: bool)
    ensures same { IsSameScript link.old link.new }
    ensures items { (any_start link.new).items ≡ (any_start link.old).items }
    ensures start { IsHandedOut (any_state link.new) (any_start link.new) reused }
    ensures over { IsHandedScript link.new reused }
{
    match link {
        Upstream::H1(link) => link.hand_out(reused),
        Upstream::H2(link) => link.hand_out(reused),
        Upstream::Custom(link) => link.hand_out(reused),
    }
}
