//! The end of a request: its link goes back to the connector, and its attempt is recorded.
ghost use Rattle.std.specs.Prelude.{◌≡◌, ◌+◌, ◌<◌, ◌≤◌, [], ◌∷◌, true};
ghost use Rattle.relay_request.specs.Closing.{HandsBack, Settles, GivesLinkUp, Finishes};
ghost use Rattle.relay_request.specs.Relaying.{is_closing};
ghost use Rattle.relay_request.specs.Stock.{items_held, all_links};
ghost use Rattle.relay_connector.specs.Connector.{handed};
ghost use Rattle.relay_request.specs.Turn.{links_held, is_over};

use relay_connector::{Connector, LinkOf};
use relay_links::ByteLink;
use relay_request::{Attempt, AttemptList, AttemptRecord, Ending, Lease, Outcome, Owed, Phase};
use std::alloc::Global;
use std::mem;

/// Hands a link back with that mark, and records its attempt. It takes no memory.
fn release<K: Connector>(
    connector: &mut K,
    link: LinkOf<K>,
    lease: Lease,
    keep: bool,
    outcome: Outcome,
) -> AttemptList
    requires { 0 < K.out connector.old }
    ensures back { HandsBack link lease keep outcome (K.returned connector.old)
        (K.returned connector.new) result }
    ensures out { K.out connector.new + 1 ≡ K.out connector.old }
    ensures faults { K.fault_count connector.new ≡ K.fault_count connector.old }
    ensures refusals { K.refusals connector.new ≡ K.refusals connector.old }
    ensures offers { K.stock connector.new ≡ K.stock connector.old }
    ensures links { all_links ⟦<LinkOf<K> as ByteLink>⟧.start (K.returned connector.new) []
        ≡ all_links ⟦<LinkOf<K> as ByteLink>⟧.start (K.returned connector.old)
        (handed (⟦<LinkOf<K> as ByteLink>⟧.start link) ∷ []) }
{
    let Lease {
        peer,
        recorded,
        reused,
        room,
    } = lease;
    connector.release(peer, link, keep);
    room.fill(AttemptRecord {
        peer: recorded,
        reused,
        kept: keep,
        error: outcome.error(),
        fault: None,
    })
}

/// Ends a request that is to be closed: its link goes back. That of a failed attempt goes back too,
/// and another one follows, or the client is given what it is owed. Any other phase stays.
pub(crate) fn settle<K: Connector, C: Drop>(connector: &mut K, phase: &mut Phase<LinkOf<K>, C>)
    requires { links_held ⟦<LinkOf<K> as ByteLink>⟧.state ⟦<LinkOf<K> as ByteLink>⟧.start phase.old
        ≤ K.out connector.old }
    ensures settles { Settles phase.old (K.returned connector.old) (K.returned connector.new)
        phase.new }
    ensures over { is_over phase.new ≡ is_over phase.old }
    ensures out { K.out connector.new + links_held ⟦<LinkOf<K> as ByteLink>⟧.state
        ⟦<LinkOf<K> as ByteLink>⟧.start phase.old
        ≡ K.out connector.old + links_held ⟦<LinkOf<K> as ByteLink>⟧.state
        ⟦<LinkOf<K> as ByteLink>⟧.start phase.new }
    ensures faults { K.fault_count connector.new ≡ K.fault_count connector.old }
    ensures refusals { K.refusals connector.new ≡ K.refusals connector.old }
    ensures offers { K.stock connector.new ≡ K.stock connector.old }
    ensures links { all_links ⟦<LinkOf<K> as ByteLink>⟧.start (K.returned connector.new)
        (items_held ⟦<LinkOf<K> as ByteLink>⟧.start phase.new)
        ≡ all_links ⟦<LinkOf<K> as ByteLink>⟧.start (K.returned connector.old)
        (items_held ⟦<LinkOf<K> as ByteLink>⟧.start phase.old) }
{
    if phase.is_closing() {
        close(connector, phase);
    }
}

/// Ends a request that is to be closed, or goes on to another attempt or to what its client is
/// owed: its link goes back.
fn close<K: Connector, C: Drop>(connector: &mut K, phase: &mut Phase<LinkOf<K>, C>)
    requires closing { is_closing phase.old ≡ true }
    requires held { links_held ⟦<LinkOf<K> as ByteLink>⟧.state ⟦<LinkOf<K> as ByteLink>⟧.start
        phase.old ≤ K.out connector.old }
    ensures settles { Settles phase.old (K.returned connector.old) (K.returned connector.new)
        phase.new }
    ensures over { is_over phase.new ≡ is_over phase.old }
    ensures out { K.out connector.new + links_held ⟦<LinkOf<K> as ByteLink>⟧.state
        ⟦<LinkOf<K> as ByteLink>⟧.start phase.old
        ≡ K.out connector.old + links_held ⟦<LinkOf<K> as ByteLink>⟧.state
        ⟦<LinkOf<K> as ByteLink>⟧.start phase.new }
    ensures faults { K.fault_count connector.new ≡ K.fault_count connector.old }
    ensures refusals { K.refusals connector.new ≡ K.refusals connector.old }
    ensures offers { K.stock connector.new ≡ K.stock connector.old }
    ensures links { all_links ⟦<LinkOf<K> as ByteLink>⟧.start (K.returned connector.new)
        (items_held ⟦<LinkOf<K> as ByteLink>⟧.start phase.new)
        ≡ all_links ⟦<LinkOf<K> as ByteLink>⟧.start (K.returned connector.old)
        (items_held ⟦<LinkOf<K> as ByteLink>⟧.start phase.old) }
{
    match mem::replace(phase, Phase::ReadHead) {
        Phase::Close(link, lease, keep, outcome) => {
            let attempts = release(connector, link, lease, keep, outcome);
            phase.put(Phase::Ended(outcome, attempts));
        }
        Phase::Again(context, session, link, lease, keep, error) => {
            let outcome = Owed::Served(error).outcome();
            let attempts = release(connector, link, lease, keep, outcome);
            phase.put(Phase::Connect(context, session, attempts));
        }
        Phase::Fail(link, lease, keep, session, error) => {
            let owed = Owed::Served(error);
            let attempts = release(connector, link, lease, keep, owed.outcome());
            phase.put(Phase::Answer(session, owed, attempts));
        }
        Phase::ReadHead => unreachable!(),
        Phase::Connect(_context, _session, _tries) => unreachable!(),
        Phase::Unlinked(_context, _session, _attempts, _error) => unreachable!(),
        Phase::Prepare(_context, _session, _link, _lease) => unreachable!(),
        Phase::Relay(_attempt) => unreachable!(),
        Phase::Broken(_context, _session, _link, _lease, _keep, _error) => unreachable!(),
        Phase::Answer(_session, _owed, _attempts) => unreachable!(),
        Phase::Ended(_outcome, _attempts) => unreachable!(),
    }
}

/// A request that has no link gives up, behind those attempts.
fn give_up(attempts: AttemptList) -> Ending
    ensures outcome { result.outcome ≡ Outcome.TurnLimit }
    ensures attempts { result.attempts ≡ attempts }
{
    Ending {
        outcome: Outcome::TurnLimit,
        attempts,
    }
}

/// A request that has a link gives up: the link goes back and is not kept.
fn give_link_up<K: Connector>(connector: &mut K, link: LinkOf<K>, lease: Lease) -> Ending
    requires { 0 < K.out connector.old }
    ensures gives { GivesLinkUp link lease (K.returned connector.old) (K.returned connector.new)
        result }
    ensures out { K.out connector.new + 1 ≡ K.out connector.old }
    ensures faults { K.fault_count connector.new ≡ K.fault_count connector.old }
    ensures refusals { K.refusals connector.new ≡ K.refusals connector.old }
    ensures offers { K.stock connector.new ≡ K.stock connector.old }
    ensures links { all_links ⟦<LinkOf<K> as ByteLink>⟧.start (K.returned connector.new) []
        ≡ all_links ⟦<LinkOf<K> as ByteLink>⟧.start (K.returned connector.old)
        (handed (⟦<LinkOf<K> as ByteLink>⟧.start link) ∷ []) }
{
    Ending {
        outcome: Outcome::TurnLimit,
        attempts: release(connector, link, lease, false, Outcome::TurnLimit),
    }
}

/// Brings a request to its end, wherever it stands. One that has not ended gives up: its link goes
/// back and is not kept.
pub(crate) fn finish<K: Connector, C: Drop>(
    alloc: Global,
    connector: &mut K,
    phase: Phase<LinkOf<K>, C>,
) -> Ending
    requires { links_held ⟦<LinkOf<K> as ByteLink>⟧.state ⟦<LinkOf<K> as ByteLink>⟧.start phase ≤
        K.out connector.old }
    ensures finishes { Finishes phase (K.returned connector.old) (K.returned connector.new) result }
    ensures out { K.out connector.new + links_held ⟦<LinkOf<K> as ByteLink>⟧.state
        ⟦<LinkOf<K> as ByteLink>⟧.start phase
        ≡ K.out connector.old }
    ensures faults { K.fault_count connector.new ≡ K.fault_count connector.old }
    ensures refusals { K.refusals connector.new ≡ K.refusals connector.old }
    ensures offers { K.stock connector.new ≡ K.stock connector.old }
    ensures links { all_links ⟦<LinkOf<K> as ByteLink>⟧.start (K.returned connector.new) []
        ≡ all_links ⟦<LinkOf<K> as ByteLink>⟧.start (K.returned connector.old)
        (items_held ⟦<LinkOf<K> as ByteLink>⟧.start phase) }
{
    match phase {
        Phase::ReadHead => give_up(AttemptList::new(alloc)),
        Phase::Connect(_context, _session, tries) => give_up(tries),
        Phase::Unlinked(_context, _session, attempts, _error) => give_up(attempts),
        Phase::Prepare(_context, _session, link, lease) => give_link_up(connector, link, lease),
        Phase::Relay(attempt) => {
            let Attempt {
                exchange,
                lease,
                context: _,
            } = Box::into_inner(attempt);
            give_link_up(connector, exchange.into_link(), lease)
        }
        Phase::Broken(_context, _session, link, lease, _keep, _error) => {
            give_link_up(connector, link, lease)
        }
        Phase::Again(_context, _session, link, lease, _keep, _error) => {
            give_link_up(connector, link, lease)
        }
        Phase::Fail(link, lease, keep, _session, error) => Ending {
            outcome: Outcome::TurnLimit,
            attempts: release(connector, link, lease, keep, Owed::Served(error).outcome()),
        },
        Phase::Answer(_session, _owed, attempts) => give_up(attempts),
        Phase::Close(link, lease, keep, outcome) => Ending {
            outcome,
            attempts: release(connector, link, lease, keep, outcome),
        },
        Phase::Ended(outcome, attempts) => Ending { outcome, attempts },
    }
}
