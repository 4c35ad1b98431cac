//! The requests of a client over scripted links: the proxy between the client and the peers of a
//! script, one request behind the other while the client goes back (RFC 9112, section 9.3).
ghost use Rattle.std.specs.Prelude.{◌≡◌, ◌↔◌, List, drop, length, IsTrue, IfOk, OnOk};
ghost use Rattle.relay_links.specs.ListSchedule.{branches_left};
ghost use Rattle.relay_command.specs.Exchange.{attempt_report, attempt_reports, left_by, sent_by, taken_since, StartsWithin, StartWithin, sents_of, first_name, names_of, AreEntriesOf, IsConnectorOf, IsAt, Begins, Runs, IsRun, application_of, reported};
ghost use Rattle.relay_command.specs.Report.{request_spec, request_specs};
ghost use Rattle.relay_json.specs.Script.{PeerSpec, ScriptSpec, peer_spec, peer_specs, script_spec};

use crate::report::{AttemptReport, RequestReport, outcome_reuse};
use bytes::Bytes;
use relay_connector::{AnyScript, PeerScript, Returned, ScriptConnector, Upstream};
use relay_h1::Connection;
use relay_json::{PeerEntry, Script};
use relay_links::{Branch, CountDelay, ListSchedule, MemoryPurger, ScriptLink, ShutdownAt};
use relay_proxy::{
    AttemptList, AttemptRecord, HttpProxy, Outcome, Outside, Processed, ServerConf, http_proxy,
};
use relay_script::CheckedRules;
use relay_scripted::ScriptProxy;
use relay_tasks::{MOST_LINES, Peer};
use std::alloc::{AllocError, Global};
use std::collections::VecDeque;

/// How an attempt is named for which no peer of the script was left.
const NO_NAME: &[u8] = b"-";

/// A run under way: the proxy over the peers of a script, the client, what the proxy asks beside
/// its links, and the names of the peers that were not asked yet.
#[derive(Drop)]
struct Run {
    proxy: HttpProxy<ScriptProxy, ScriptConnector, MemoryPurger>,
    client: Connection<ScriptLink, u64>,
    outside: Outside<ListSchedule, ShutdownAt, CountDelay>,
    names: VecDeque<Bytes>,
}

/// Runs the requests of a script, as many as it allows: the next one begins where the client goes
/// back.
pub fn run_exchanges(alloc: Global, script: Script) -> Result<Vec<RequestReport>, AllocError>
    ensures { IfOk result (λ requests. IsRun (script_spec script) (request_specs requests.items)) }
{
    let turns = script.turns;
    let mut left = script.requests;
    let mut run = Run::new(alloc, script)?;
    let mut requests = Vec::new(alloc);
    while left > 0 {
        let request = run.next(alloc, turns)?;
        let goes_back = outcome_reuse(request.outcome);
        requests.push(request)?;
        if !goes_back {
            return Ok(requests);
        }
        left -= 1;
    }
    Ok(requests)
}

impl Run {
    /// A run of a script, before its first request.
    fn new(alloc: Global, script: Script) -> Result<Run, AllocError>
        ensures { IfOk result (Begins (script_spec script)) }
    {
        let Script {
            client,
            client_write,
            peers,
            requests: _,
            retries,
            turns: _,
            schedule,
            purge,
            rules,
        } = script;
        let names = peer_names(alloc, &peers)?;
        let connector = connector_of(alloc, peers)?;
        let link = ScriptLink::new(alloc, client, client_write);
        let purger = MemoryPurger::new(alloc, purge);
        let conf = ServerConf {
            max_retries: retries.most(),
        };
        Ok(Run {
            proxy: http_proxy(alloc, conf, application(rules), connector, purger),
            client: Connection::new(alloc, link),
            outside: outside_of(schedule),
            names,
        })
    }

    /// Runs the next request of the client, and reports it.
    fn next(&mut self, alloc: Global, turns: u64) -> Result<RequestReport, AllocError>
        ensures { (script : ScriptSpec) (peers : List PeerSpec) → script.turns ≡ turns
            → IsAt script self.old peers
            → IfOk result (λ request. Runs script peers self.old self.new (request_spec request)) }
    {
        let taken = self.client.link().taken().len();
        let back = self.proxy.connector().returned().len();
        let processed = self
            .proxy
            .process_new_http(&mut self.client, &mut self.outside, turns);
        if wants_memory(processed.outcome) {
            return Err(AllocError);
        }
        request_report(
            alloc,
            &mut self.names,
            &processed,
            bytes_behind(self.client.link().taken(), taken),
            &self.proxy.connector().returned()[back..],
        )
    }
}

/// The bytes behind so many of them; none where there are no more.
fn bytes_behind(bytes: &[u8], count: usize) -> &[u8]
    ensures { result.now ≡ drop count bytes.now }
{
    if count < bytes.len() {
        &bytes[count..]
    } else {
        &[]
    }
}

/// The application of a script: its hooks do what the rules say. Which peer an attempt has is up to
/// the connector, so the one for which the application asks has no address.
fn application(rules: CheckedRules) -> ScriptProxy
    ensures { result ≡ application_of rules }
{
    let peer = Peer {
        address: Bytes::new(),
        tls: false,
        allows_h1: true,
    };
    ScriptProxy::new(rules, peer)
}

/// Takes the name of the next peer, and a dash where none is left.
fn take_name(names: &mut VecDeque<Bytes>) -> Bytes
    ensures name { result ≡ first_name names.old.items }
    ensures left { names.new.items ≡ drop 1 names.old.items }
{
    match names.pop_front() {
        Some(name) => name,
        None => Bytes::from_static(NO_NAME),
    }
}

/// The names of the peers of a script.
fn peer_names(alloc: Global, peers: &[PeerEntry]) -> Result<VecDeque<Bytes>, AllocError>
    ensures { IfOk result (λ names. names.items ≡ names_of (peer_specs peers.now)) }
{
    let mut names = VecDeque::new(alloc);
    for peer in peers {
        names.push_back(peer.name.clone()?)?;
    }
    Ok(names)
}

/// What the proxy of a script asks beside its links: the branches of the script, in order.
fn outside_of(schedule: Vec<Branch>) -> Outside<ListSchedule, ShutdownAt, CountDelay>
    ensures { branches_left result.schedule ≡ schedule.items }
{
    Outside {
        schedule: ListSchedule::new(schedule),
        shutdown: ShutdownAt::new(None),
        delay: CountDelay::new(),
    }
}

/// Whether the outcome is out of memory, which is not reported.
fn wants_memory(outcome: Outcome) -> bool
    ensures { IsTrue result ↔ (outcome ≡ Outcome.OutOfMemory) }
{
    match outcome {
        Outcome::OutOfMemory => true,
        Outcome::NoRequest
        | Outcome::Refused { .. }
        | Outcome::Served { .. }
        | Outcome::TurnLimit => false,
    }
}

/// A connector to the peers of a script.
fn connector_of(alloc: Global, peers: Vec<PeerEntry>) -> Result<ScriptConnector, AllocError>
    ensures { IfOk result (IsConnectorOf (peer_specs peers.items)) }
{
    let entries = entries_of(alloc, peers)?;
    match ScriptConnector::new(alloc, entries) {
        Ok(connector) => Ok(connector),
        Err(_) => Err(AllocError),
    }
}

/// The entries of a connector to these peers, in order.
fn entries_of(alloc: Global, peers: Vec<PeerEntry>) -> Result<Vec<PeerScript>, AllocError>
    ensures { IfOk result (λ entries. AreEntriesOf (peer_specs peers.items) entries.items) }
{
    let mut entries = Vec::new(alloc);
    for peer in peers {
        entries.push(PeerScript {
            name: peer.name,
            link: Upstream::H1(ScriptLink::new(alloc, peer.read, peer.write)),
            connect: peer.connect,
            again: peer.again,
        })?;
    }
    Ok(entries)
}

/// What a request at the next of the peers came to, from what the client's link took in it, and the
/// links that it handed back. The names of the peers that it asked are taken.
fn request_report(
    alloc: Global,
    names: &mut VecDeque<Bytes>,
    processed: &Processed,
    written: &[u8],
    links: &[Returned<AnyScript>],
) -> Result<RequestReport, AllocError>
    requires { StartWithin links.now }
    ensures { IfOk result (λ request. (request_spec request
        ≡ reported names.old.items processed.now written.now links.now)
        × (names.new.items ≡ drop (length processed.now.history.attempts) names.old.items)) }
{
    let written = Bytes::copy_from_slice(alloc, written)?;
    let calls = &processed.history.log;
    let log = Vec::from_slice(alloc, calls.lines())?;
    let unlisted = calls.len().saturating_sub(MOST_LINES);
    let attempts = attempt_reports(alloc, names, links, &processed.history.attempts)?;
    Ok(RequestReport {
        outcome: processed.outcome,
        written,
        attempts,
        log,
        unlisted,
    })
}

/// What the attempts came to, each at the next of the peers, whose name is taken. Each that had a
/// link had the next of these.
fn attempt_reports(
    alloc: Global,
    names: &mut VecDeque<Bytes>,
    links: &[Returned<AnyScript>],
    attempts: &AttemptList,
) -> Result<Vec<AttemptReport>, AllocError>
    requires { StartWithin links.now }
    ensures reports { IfOk result (λ reports. reports.items
        ≡ attempt_reports names.old.items (sents_of links.now) attempts.now) }
    ensures left { OnOk result (names.new.items ≡ drop (length attempts.now) names.old.items) }
{
    let mut reports = Vec::new(alloc);
    let mut rest = links;
    while let Some(attempt) = attempts.get(reports.len()) {
        let (sent, behind) = take_sent(alloc, rest, attempt)?;
        let report = attempt_report(take_name(names), sent, attempt);
        reports.push(report)?;
        rest = behind;
    }
    Ok(reports)
}

/// What the link of an attempt took, and the links behind it: an attempt that had one had the first
/// of these.
fn take_sent<'a>(
    alloc: Global,
    links: &'a [Returned<AnyScript>],
    attempt: &AttemptRecord,
) -> Result<(Bytes, &'a [Returned<AnyScript>]), AllocError>
    requires { StartWithin links.now }
    ensures { IfOk result (λ taken. (taken.0 ≡ sent_by attempt.now.fault (sents_of links.now))
        × (taken.1.now ≡ left_by attempt.now.fault links.now)) }
{
    if !attempt.has_link() {
        return Ok((Bytes::new(), links));
    }
    match links {
        [] => Ok((Bytes::new(), links)),
        [first, rest @ ..] => {
            let sent = Bytes::copy_from_slice(alloc, taken_since(&first.link))?;
            Ok((sent, rest))
        }
    }
}

/// What an attempt at the peer of that name came to, whose link took those bytes.
fn attempt_report(name: Bytes, sent: Bytes, attempt: &AttemptRecord) -> AttemptReport
    ensures { result ≡ attempt_report name sent attempt.now }
{
    AttemptReport {
        name,
        reused: attempt.reused,
        kept: attempt.kept,
        error: attempt.error,
        sent,
    }
}

/// The bytes that a link took since it was handed out. No script makes a link of messages yet; such
/// a link took no bytes.
fn taken_since(link: &AnyScript) -> &[u8]
    requires { StartsWithin link.now }
    ensures { result.now ≡ taken_since link.now }
{
    match link {
        Upstream::H1(link) => {
            let taken = link.taken();
            &taken[link.start_taken()..]
        }
        Upstream::H2(_) | Upstream::Custom(_) => &[],
    }
}
