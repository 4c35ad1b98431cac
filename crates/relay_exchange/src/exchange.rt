//! One exchange over any two sides: the head of the request is sent, and then both bodies flow
//! (RFC 9112, sections 6, 7 and 9.3).
ghost use Rattle.std.specs.Prelude.{◌≡◌, ◌⊎◌, ◌≤◌, true, false, None, Some, IsTrue};
ghost use Rattle.std.specs.Borrow.{sem};
ghost use Rattle.relay_tasks.specs.declared.error.Error.{Error};
ghost use Rattle.relay_core.specs.Asked.{WaitRose};
ghost use Rattle.relay_core.specs.Causes.{says_failed, says_finished};
ghost use Rattle.relay_core.specs.Down.{DownState, Lasting};
ghost use Rattle.relay_core.specs.Past.{Origin, DownPast, UpPast};
ghost use Rattle.relay_core.specs.Sound.{IsSound};
ghost use Rattle.relay_core.specs.Table.{begins, core, enabled, with_replay};
ghost use Rattle.relay_core.specs.Uses.{Asks, AsksOne};
ghost use Rattle.relay_exchange.specs.UpLent.{LendsUp};
ghost use Rattle.relay_exchange.specs.Exchange.{HasMoved, IsSilentLink, IsUnderWay, MeetsSilence, TellsOn, Turns, may_keep_at, put_first, stage_of};

use crate::round::go_round;
use relay_core::{Down, Duplex, Piece, Step, Up};
use relay_links::{Branch, Schedule};
use relay_tasks::{Fail, Pause};
use std::alloc::Global;

/// How far an exchange is: the request's head is sent, or both bodies flow.
#[derive(Clone, Copy, Debug, PartialEq, Eq)]
pub(crate) enum Stage {
    Head,
    Bodies,
}

/// A request whose head was read, and its response, over the upstream's side. The client's side is
/// the caller's, and each turn is handed it: so one that borrows is made for a turn alone.
#[derive(Drop)]
pub struct Exchange<U> {
    pub(crate) up: U,
    pub(crate) duplex: Duplex,
    pub(crate) stage: Stage,
}

/// What one turn of an exchange came to: the answer, and the branch that answered; none where the
/// head was being sent, and where all links are silent.
#[derive(Clone, Copy, Debug, PartialEq, Eq)]
pub struct Turn {
    pub step: Step,
    pub branch: Option<Branch>,
}

impl<U: Up> Exchange<U> {
    /// An exchange over that side, which holds the head that is sent; `body_done` says that the
    /// client's body has ended. `replay` is what was read of the request before, as one piece and
    /// as filters left it, which is put first: an empty one that is not the end is not put. It is
    /// the end exactly where the request has ended for the peer, which it may while the client's
    /// body goes on. It takes no memory.
    pub fn begin(alloc: Global, body_done: bool, up: U, replay: Option<Piece>) -> Exchange<U>
        ensures fresh { result.duplex ≡ with_replay
            (begins (U.state up).kind body_done result.duplex) (put_first replay) }
        ensures sound { (down : DownState) → down.body_done ≡ body_done
            → IsSound (core result.duplex down (U.state up)) }
        ensures exact { result ≡ record {
          up = up;
          duplex = result.duplex;
          stage = Stage.Head;
        } }
    {
        let mut duplex = Duplex::new(alloc, up.kind(), body_done);
        match replay {
            Some(piece) => duplex.put_replay(piece),
            None => {}
        }
        Exchange {
            up,
            duplex,
            stage: Stage::Head,
        }
    }

    /// One turn between that client's side, which is the same for each turn, and the upstream's:
    /// one write of the request's head, or one branch of the duplex. The schedule picks the branch;
    /// where it names none or one that is not enabled, the first enabled one is taken. A branch
    /// whose link is silent passes the turn on to the next enabled one, going round; where all are
    /// silent the answer is `Waited(Silent)`, and nothing moved.
    ///
    /// `Finished`: both halves have finished. `Failed` with an error says why one of both failed:
    /// nothing more is written or sent from then on. After `Finished` and `Failed` no turn is to
    /// follow.
    pub fn turn<C, D: Down<C>, H: Schedule>(
        &mut self,
        client: &mut C,
        down: &mut D,
        schedule: &mut H,
    ) -> Turn
        ensures goes { (s : Origin) (p : DownPast) (q : UpPast)
            → IsUnderWay (D.past down.old client.old s) (U.past self.old.up s)
            (U.blames self.old.up s)
            (core self.old.duplex (D.state down.old) (U.state self.old.up)) p q
            → Turns (D.past down.new client.new s) (D.blames down.new client.new s)
            (D.refuses down.new client.new s) (D.cannot_end down.new client.new s)
            (U.past self.new.up s) (U.blames self.new.up s) p q
            (core self.old.duplex (D.state down.old) (U.state self.old.up))
            (core self.new.duplex (D.state down.new) (U.state self.new.up)) result.step }
        // It finishes only where the head was sent.
        ensures bodies { result.step ≡ Step.Finished → self.new.stage ≡ Stage.Bodies }
        // It waits only where a link answered so in this turn.
        ensures waits { result.step ≡ Step.Waited Pause.NotReady
            → WaitRose (D.link client.old) (D.link client.new) (U.link self.old.up)
            (U.link self.new.up) }
        ensures silent { result.step ≡ Step.Waited Pause.Silent
            → IsSilentLink (D.link client.new) ⊎ IsSilentLink (U.link self.new.up) }
        // In silence all that can be done asks a link that is silent on it, and neither link
        // changed.
        ensures quiet { result.step ≡ Step.Waited Pause.Silent
            → MeetsSilence self.new.stage
            (core self.new.duplex (D.state down.new) (U.state self.new.up))
            (D.link client.old) (D.link client.new) (U.link self.old.up) (U.link self.new.up) }
        // A turn asks one link once, or none. One that moved asked the link of its branch, or it
        // put a task into a pipe, took some out of one, brought an end, or called a hook.
        ensures asks { Asks result.step (D.link client.old) (D.link client.new)
            (U.link self.old.up) (U.link self.new.up) }
        ensures moves { (s : Origin) (p : DownPast) (q : UpPast)
            → IsUnderWay (D.past down.old client.old s) (U.past self.old.up s)
            (U.blames self.old.up s)
            (core self.old.duplex (D.state down.old) (U.state self.old.up)) p q
            → result.step ≡ Step.Moved
            → HasMoved result.branch
            (core self.old.duplex (D.state down.old) (U.state self.old.up))
            (core self.new.duplex (D.state down.new) (U.state self.new.up))
            (D.link client.old) (D.link client.new) (U.link self.old.up) (U.link self.new.up) }
        // The client's side tells no error but the one that a turn fails with.
        ensures errors { TellsOn (D.state down.old).told (D.state down.new).told
            result.step }
        // A turn that does not fail takes no call of a hook back.
        ensures calls { says_failed result.step ≡ false
            → (D.state down.old).calls ≤ (D.state down.new).calls }
        // A turn that does not fail leaves the count of the client's faults.
        ensures calm { says_failed result.step ≡ false
            → (D.link client.new).faults ≡ (D.link client.old).faults }
        ensures client_start { D.start client.new ≡ D.start client.old }
        ensures peer_start { U.start self.new.up ≡ U.start self.old.up }
        // The calls of the client's side leave it as each of them says.
        ensures lasts { Lasting D.lasts down.old down.new }
    {
        if self.sends_head(down) {
            let step = send_head(
                client,
                down,
                &mut self.up,
                &mut self.duplex,
                &mut self.stage,
            );
            return Turn { step, branch: None };
        }
        self.stage = Stage::Bodies;
        let (step, branch) = go_round(&mut self.duplex, client, down, &mut self.up, schedule);
        Turn { step, branch }
    }

    /// Whether the head is being sent, and the upstream can be written.
    fn sends_head<C, D: Down<C>>(&self, down: &D) -> bool
        ensures { IsTrue result → IsTrue (enabled
            (core self.now.duplex (D.state down.now) (U.state self.now.up)) Branch.UpWrite) }
    {
        match self.stage {
            Stage::Head => self.duplex.enabled(down, &self.up, Branch::UpWrite),
            Stage::Bodies => false,
        }
    }
}

impl<U> Exchange<U> {
    /// The upstream's side.
    pub fn up(&self) -> &U
        ensures { result.now ≡ self.now.up }
    {
        &self.up
    }

    /// The upstream's side, to be changed. How far the exchange has come stays.
    pub fn up_mut(&mut self) -> &mut U
        ensures* writes_back { sem 𝓛 (LendsUp U.row self.entry result) }
        ensures value { result.now ≡ self.old.up }
    {
        &mut self.up
    }

    /// Whether the upstream's link may be kept for a next request, as far as the duplex knows: not
    /// while the head is being sent.
    pub fn upstream_may_keep(&self) -> bool
        ensures { result ≡ may_keep_at self.now.stage self.now.duplex }
    {
        match self.stage {
            Stage::Head => false,
            Stage::Bodies => self.duplex.upstream_may_keep(),
        }
    }

    /// The upstream's side alone.
    pub fn into_up(self) -> U
        ensures { result ≡ self.up }
    {
        let Exchange {
            up,
            duplex: _duplex,
            stage: _,
        } = self;
        up
    }
}

/// One write of the request's head. Once all of it was taken, both bodies flow.
fn send_head<C, D: Down<C>, U: Up>(
    client: &mut C,
    down: &mut D,
    up: &mut U,
    duplex: &mut Duplex,
    stage: &mut Stage,
) -> Step
    requires { IsTrue (enabled (core duplex.old (D.state down.old) (U.state up.old))
        Branch.UpWrite) }
    ensures goes { (s : Origin) (p : DownPast) (q : UpPast)
        → IsUnderWay (D.past down.old client.old s) (U.past up.old s) (U.blames up.old s)
        (core duplex.old (D.state down.old) (U.state up.old)) p q
        → Turns (D.past down.new client.new s) (D.blames down.new client.new s)
        (D.refuses down.new client.new s) (D.cannot_end down.new client.new s)
        (U.past up.new s) (U.blames up.new s) p q
        (core duplex.old (D.state down.old) (U.state up.old))
        (core duplex.new (D.state down.new) (U.state up.new)) result }
    ensures unfinished { says_finished result ≡ false }
    ensures waits { result ≡ Step.Waited Pause.NotReady
        → WaitRose (D.link client.old) (D.link client.new) (U.link up.old) (U.link up.new) }
    ensures quiet { result ≡ Step.Waited Pause.Silent
        → MeetsSilence stage.new (core duplex.new (D.state down.new) (U.state up.new))
        (D.link client.old) (D.link client.new) (U.link up.old) (U.link up.new) }
    ensures silent { result ≡ Step.Waited Pause.Silent → IsSilentLink (U.link up.new) }
    ensures asks { Asks result (D.link client.old) (D.link client.new) (U.link up.old)
        (U.link up.new) }
    ensures moves { (s : Origin) (p : DownPast) (q : UpPast)
        → IsUnderWay (D.past down.old client.old s) (U.past up.old s) (U.blames up.old s)
        (core duplex.old (D.state down.old) (U.state up.old)) p q
        → result ≡ Step.Moved
        → AsksOne (U.link up.old) (U.link up.new) (D.link client.old) (D.link client.new) }
    ensures errors { TellsOn (D.state down.old).told (D.state down.new).told result }
    ensures calls { says_failed result ≡ false
        → (D.state down.old).calls ≤ (D.state down.new).calls }
    ensures calm { says_failed result ≡ false
        → (D.link client.new).faults ≡ (D.link client.old).faults }
    ensures client_start { D.start client.new ≡ D.start client.old }
    ensures peer_start { U.start up.new ≡ U.start up.old }
    ensures lasts { Lasting D.lasts down.old down.new }
{
    let step = write_head(client, down, up, duplex);
    *stage = stage_behind(up);
    step
}

/// Writes what waits of the head once. An error of the write is the answer.
fn write_head<C, D: Down<C>, U: Up>(
    client: &mut C,
    down: &mut D,
    up: &mut U,
    duplex: &mut Duplex,
) -> Step
    requires { IsTrue (enabled (core duplex.old (D.state down.old) (U.state up.old))
        Branch.UpWrite) }
    ensures goes { (s : Origin) (p : DownPast) (q : UpPast)
        → IsUnderWay (D.past down.old client.old s) (U.past up.old s) (U.blames up.old s)
        (core duplex.old (D.state down.old) (U.state up.old)) p q
        → Turns (D.past down.new client.new s) (D.blames down.new client.new s)
        (D.refuses down.new client.new s) (D.cannot_end down.new client.new s)
        (U.past up.new s) (U.blames up.new s) p q
        (core duplex.old (D.state down.old) (U.state up.old))
        (core duplex.new (D.state down.new) (U.state up.new)) result }
    ensures unfinished { says_finished result ≡ false }
    // An error with which the head could not be sent is the answer.
    ensures told { (e : Error) → duplex.old.send_error ≡ None → duplex.new.send_error ≡ Some e
        → result ≡ Step.Failed (Fail.Error e) }
    ensures waits { result ≡ Step.Waited Pause.NotReady
        → WaitRose (D.link client.old) (D.link client.new) (U.link up.old) (U.link up.new) }
    ensures quiet { result ≡ Step.Waited Pause.Silent
        → ((U.state up.new).pending ≡ true) × ((U.link up.new).silent_on_write ≡ true)
        × (D.link client.new ≡ D.link client.old) × (U.link up.new ≡ U.link up.old) }
    ensures asks { Asks result (D.link client.old) (D.link client.new) (U.link up.old)
        (U.link up.new) }
    ensures moves { (s : Origin) (p : DownPast) (q : UpPast)
        → IsUnderWay (D.past down.old client.old s) (U.past up.old s) (U.blames up.old s)
        (core duplex.old (D.state down.old) (U.state up.old)) p q
        → result ≡ Step.Moved
        → AsksOne (U.link up.old) (U.link up.new) (D.link client.old) (D.link client.new) }
    ensures errors { TellsOn (D.state down.old).told (D.state down.new).told result }
    ensures calls { says_failed result ≡ false
        → (D.state down.old).calls ≤ (D.state down.new).calls }
    ensures calm { says_failed result ≡ false
        → (D.link client.new).faults ≡ (D.link client.old).faults }
    ensures client_start { D.start client.new ≡ D.start client.old }
    ensures peer_start { U.start up.new ≡ U.start up.old }
    ensures lasts { Lasting D.lasts down.old down.new }
{
    let step = duplex.step(client, down, up, Branch::UpWrite);
    match duplex.send_error() {
        Some(error) => Step::Failed(Fail::Error(error)),
        None => step,
    }
}

/// The stage by what waits of the head.
fn stage_behind<U: Up>(up: &U) -> Stage
    ensures { result ≡ stage_of (U.state up.now).pending }
{
    if up.has_pending() {
        return Stage::Head;
    }
    Stage::Bodies
}
