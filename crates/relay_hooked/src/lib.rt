//! One exchange behind an application's filters, held between its turns; and what passed in it, as
//! one order: laws over the pasts of both sides.
#![tactic(auto)]

mod exchange;

ghost use Rattle.relay_hooked.specs.Neutral.{IsAsWithout};
ghost use Rattle.relay_hooked.specs.Stations.{ComeInOrder};
ghost use Rattle.relay_hooked.specs.Order.{EndsByCause};
ghost use Rattle.relay_hooked.specs.Laws.{IsAttemptSoFar, IsCaused, IsFinishing, IsInOrderSoFar, IsToldSoFar};

pub use exchange::{HookedExchange, Unbegun, begin};
use relay_links::ByteLink;

/// What passed between a client's side behind the filters of that application and a peer's side is
/// an attempt: each side was given the front of what the other put.
pub fn attempt_so_far<L: ByteLink>()
    ensures attempt { IsAttemptSoFar L.state L.start }
    // And it is told by both links.
    ensures told { IsToldSoFar L.state L.start }
{}

/// And it is in order, by the bytes that passed and by the calls of the filters, where the client's
/// writer refuses nothing that they made.
pub fn order_so_far<L: ByteLink>()
    ensures { IsInOrderSoFar L.state L.start }
{}

/// Where it failed with an error, that has its cause in what passed, by the bytes and by the calls.
pub fn failure_caused<L: ByteLink>()
    ensures { IsCaused L.state L.start }
{}

/// Where it finished, the response was relayed whole, or it was over towards the client before its
/// end was given to the filters; and the request was sent whole as they left it, or what kept it
/// from that is said.
pub fn finish_relayed<L: ByteLink>()
    ensures { IsFinishing L.state L.start }
{}

/// An order behind filters that change nothing is one without filters.
pub fn neutral_alike()
    ensures { IsAsWithout }
{}

/// The calls of a side behind filters come in the order of the calls of a request, from behind the
/// head that was sent, or from anywhere messages are relayed, up to where relaying goes on, or to
/// where the error may be told for which the side stopped.
pub fn calls_in_order()
    ensures { ComeInOrder }
{}

/// An end of what the filters of requests left has its cause: the client's body has ended, or the
/// calls of a piece took it away.
pub fn end_caused()
    ensures { EndsByCause }
{}
