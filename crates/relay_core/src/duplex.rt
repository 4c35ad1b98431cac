//! The duplex: two halves that move a request and a response, one step at a time.
//!
//! The client's half reads pieces of the request into one pipe and takes tasks of the response out
//! of the other; the upstream half does the reverse. Which steps are possible is a table over what
//! both halves hold, `specs/Table.antt`; a schedule picks one of them.
ghost use Rattle.std.specs.Prelude.{◌≡◌, ◌&&◌, ◌||◌, [], true, false, not, is_none, None, length, IsTrue, IsNone, IfSome};
ghost use Rattle.relay_links.specs.Branch.{has, is_same_branch};
ghost use Rattle.relay_links.specs.declared.branch.Branch.{Branch};
ghost use Rattle.relay_core.specs.Down.{DownState, Lasting};
ghost use Rattle.relay_core.specs.State.{is_reading, is_response_done};
ghost use Rattle.relay_core.specs.Up.{UpState};
ghost use Rattle.relay_core.specs.Piece.{task_put_of};
ghost use Rattle.relay_core.specs.Asked.{Brings, MeetsSilence, WaitRose};
ghost use Rattle.relay_core.specs.Causes.{HasCause, KeepsSendError, Tells, told_of, says_failed};
ghost use Rattle.relay_core.specs.Past.{Origin, DownPast, UpPast};
ghost use Rattle.relay_core.specs.Moves.{SoFar, Goes};
ghost use Rattle.relay_core.specs.Sound.{IsSound};
ghost use Rattle.relay_core.specs.Ends.{EndsRequest, EndsResponse, can_pass_on};
ghost use Rattle.relay_core.specs.Pipe.{places};
ghost use Rattle.relay_core.specs.Steps.{StepsTo};
ghost use Rattle.relay_core.specs.Uses.{Asks, BranchGains, BranchUses, HasMoved, Stands};
ghost use Rattle.relay_core.specs.Table.{core, begins, with_replay, enabled, chosen, is_finished, may_keep, is_failed, down_runs, up_runs, up_is_through};

use crate::down::Down;
use crate::downstream_state::DownstreamStateMachine;
use crate::piece::Piece;
use crate::pipe::{PIPE_PLACES, Pipe};
use crate::pipe_state::PipeState;
use crate::response_state::ResponseStateMachine;
use crate::step::Step;
use crate::up::Up;
use relay_links::{BRANCHES, Branch, BranchSet, Schedule, UpKind};
use relay_tasks::{Error, Pause};
use std::alloc::Global;

/// Both halves of an exchange behind its heads.
#[derive(Drop)]
pub struct Duplex {
    pub(crate) alloc: Global,
    pub(crate) kind: UpKind,
    pub(crate) client_request: DownstreamStateMachine,
    pub(crate) client_response: ResponseStateMachine,
    pub(crate) client_finished: bool,
    pub(crate) upstream_request_done: bool,
    pub(crate) upstream_response_done: bool,
    pub(crate) send_error: Option<Error>,
    pub(crate) upstream_finished: bool,
    pub(crate) requests: Pipe,
    pub(crate) responses: Pipe,
    pub(crate) word: PipeState,
}

impl Duplex {
    /// A duplex that has moved nothing. Where the client's body has ended, both sides' requests are
    /// done.
    pub fn new(alloc: Global, kind: UpKind, body_done: bool) -> Duplex
        ensures exact { result ≡ begins kind body_done result }
        ensures sound { (down : DownState) (up : UpState) → down.body_done ≡ body_done
            → IsSound (core result down up) }
    {
        Duplex {
            alloc,
            kind,
            client_request: DownstreamStateMachine::new(body_done),
            client_response: ResponseStateMachine::new(),
            client_finished: false,
            upstream_request_done: body_done,
            upstream_response_done: false,
            send_error: None,
            upstream_finished: false,
            requests: Pipe::new(),
            responses: Pipe::new(),
            word: PipeState::Active,
        }
    }

    /// Puts what was read of the request before, as one piece; the upstream's request is then not
    /// done. An empty piece that is not the end is not put. It takes no memory.
    pub fn put_replay(&mut self, piece: Piece)
        requires { self.old.requests.tasks ≡ [] }
        ensures exact { self.new ≡ with_replay self.old (task_put_of false piece) }
        ensures sound { (down : DownState) (up : UpState) → self.old.send_error ≡ None
            → self.old.upstream_response_done ≡ false
            → IsSound (core self.old down up) → IsSound (core self.new down up) }
    {
        match piece.into_task(false) {
            Some(task) => {
                self.requests.add(task);
                self.upstream_request_done = false;
            }
            None => {}
        }
    }

    /// Whether both halves have finished.
    pub fn is_finished(&self) -> bool
        ensures { result ≡ is_finished self.now }
    {
        self.upstream_finished && self.client_finished
    }

    /// Whether the upstream's link may serve again, as far as the duplex knows: an HTTP/1 link
    /// where its request and its response have ended, nothing failed to be sent and no half failed,
    /// a message link always.
    pub fn upstream_may_keep(&self) -> bool
        ensures { result ≡ may_keep self.now.kind self.now }
    {
        match self.kind {
            UpKind::H1 => {
                !self.has_failed()
                    && (self.send_error.is_none()
                        && (self.upstream_request_done && self.upstream_response_done))
            }
            UpKind::H2 => true,
            UpKind::Custom => true,
        }
    }

    /// The word that both halves share.
    pub fn state(&self) -> PipeState
        ensures { result ≡ self.now.word }
    {
        self.word
    }

    /// The error with which nothing more could be sent to the upstream, where there was one.
    pub fn send_error(&self) -> Option<Error>
        ensures { result ≡ self.now.send_error }
    {
        self.send_error
    }

    /// Whether a half failed.
    fn has_failed(&self) -> bool
        ensures { result ≡ is_failed self.now.word }
    {
        match self.word {
            PipeState::Active => false,
            PipeState::DownstreamComplete => false,
            PipeState::Failed => true,
        }
    }

    /// Whether the client's half goes on.
    fn down_runs(&self) -> bool
        ensures { result ≡ down_runs self.now }
    {
        !self.client_finished && !self.has_failed()
    }

    /// Whether the upstream half goes on.
    fn up_runs(&self) -> bool
        ensures { result ≡ up_runs self.now }
    {
        !self.upstream_finished && !self.has_failed()
    }

    /// Whether nothing more has to go to the upstream.
    fn up_is_through(&self) -> bool
        ensures { result ≡ up_is_through self.now }
    {
        (self.upstream_request_done && self.upstream_response_done)
            || (self.word.is_downstream_complete()
                && (self.upstream_request_done || self.requests.is_empty()))
    }

    /// Whether the branch can be taken now.
    pub fn enabled<C, D: Down<C>, U: Up>(&self, down: &D, up: &U, branch: Branch) -> bool
        ensures { result ≡ enabled (core self.now (D.state down.now) (U.state up.now)) branch }
    {
        match branch {
            Branch::UpWrite => self.up_runs() && (up.has_pending() && self.send_error.is_none()),
            Branch::DownWrite => self.down_runs() && down.has_pending(),
            Branch::UpTake => {
                self.up_runs()
                    && (!self.upstream_request_done
                        && (!up.has_pending() && !self.requests.is_empty()))
            }
            Branch::DownTake => {
                self.down_runs()
                    && (!down.has_pending()
                        && (!self.client_response.is_done() && !self.responses.is_empty()))
            }
            Branch::DownDrop => {
                self.down_runs() && (self.client_response.is_done() && !self.responses.is_empty())
            }
            Branch::DownEnd => {
                self.down_runs()
                    && (self.responses.is_closed()
                        && (self.responses.is_empty() && !self.client_response.is_done()))
            }
            Branch::DownClosed => {
                self.down_runs() && (self.requests.is_closed() && self.client_request.is_reading())
            }
            Branch::UpRead => {
                self.up_runs() && (!self.upstream_response_done && self.responses.has_room())
            }
            Branch::DownRead => {
                self.down_runs()
                    && (self.requests.has_room()
                        && (down.may_read()
                            && !(self.client_request.is_done() && self.client_response.is_done())))
            }
            Branch::UpFinish => {
                self.up_runs()
                    && ((!up.has_pending() || self.send_error.is_some()) && self.up_is_through())
            }
            Branch::DownFinish => {
                self.down_runs()
                    && (self.client_request.is_done()
                        && (self.client_response.is_done() && !down.has_pending()))
            }
            Branch::MessageUp => false,
            Branch::MessageDown => false,
        }
    }

    /// The branches that can be taken now.
    fn enabled_set<C, D: Down<C>, U: Up>(&self, down: &D, up: &U) -> BranchSet
        ensures { (branch : Branch) → has result branch
            ≡ enabled (core self.now (D.state down.now) (U.state up.now)) branch }
    {
        let mut set = BranchSet::new();
        for branch in BRANCHES {
            insert_if(&mut set, branch, self.enabled(down, up, branch));
        }
        set
    }

    /// Asks the schedule once for a branch: its answer where that can be taken, else the first in
    /// the order that can. None exactly where none can: both halves have finished or one failed.
    pub fn choose<C, D: Down<C>, U: Up, H: Schedule>(
        &self,
        down: &D,
        up: &U,
        schedule: &mut H,
    ) -> Option<Branch>
        ensures exact { result ≡ chosen (core self.now (D.state down.now) (U.state up.now))
            (H.last_pick schedule.new) }
        ensures can { IfSome result (λ branch.
            IsTrue (enabled (core self.now (D.state down.now) (U.state up.now)) branch)) }
        ensures stuck { IsSound (core self.now (D.state down.now) (U.state up.now)) → IsNone result
            → IsTrue (is_finished self.now || is_failed self.now.word) }
    {
        let set = self.enabled_set(down, up);
        let first = set.first();
        match schedule.pick(set) {
            Some(branch) => {
                if self.enabled(down, up, branch) {
                    Some(branch)
                } else {
                    first
                }
            }
            None => first,
        }
    }

    /// Takes the step of the branch.
    fn step_by<C, D: Down<C>, U: Up>(
        &mut self,
        client: &mut C,
        down: &mut D,
        up: &mut U,
        branch: Branch,
    ) -> Step
        requires { IsTrue (enabled (core self.old (D.state down.old) (U.state up.old)) branch) }
        ensures exact { StepsTo branch (core self.old (D.state down.old) (U.state up.old))
            (core self.new (D.state down.new) (U.state up.new)) result }
        ensures goes { (s : Origin) (p : DownPast) (q : UpPast)
            → SoFar (D.past down.old client.old s) (U.past up.old s) (U.blames up.old s)
            (core self.old (D.state down.old) (U.state up.old)) p q
            → Goes (D.past down.new client.new s) (D.blames down.new client.new s)
            (D.refuses down.new client.new s) (D.cannot_end down.new client.new s)
            (U.past up.new s) (U.blames up.new s) p q
            (core self.old (D.state down.old) (U.state up.old))
            (core self.new (D.state down.new) (U.state up.new)) result }
        ensures waits { result ≡ Step.Waited Pause.NotReady
            → WaitRose (D.link client.old) (D.link client.new) (U.link up.old) (U.link up.new) }
        ensures silent { result ≡ Step.Waited Pause.Silent
            → MeetsSilence branch (D.link client.old) (D.link client.new) (U.link up.old)
            (U.link up.new) }
        ensures brings { (s : Origin) (p : DownPast) (q : UpPast)
            → SoFar (D.past down.old client.old s) (U.past up.old s) (U.blames up.old s)
            (core self.old (D.state down.old) (U.state up.old)) p q
            → branch ≡ Branch.UpRead → result ≡ Step.Moved
            → Brings self.old self.new (U.link up.old) (U.link up.new) }

        // The branch asks its link, and what it moved is that link's, a task or a call of a hook.
        ensures links { BranchUses branch result (D.link client.old) (D.link client.new)
            (U.link up.old) (U.link up.new) }
        ensures gains { (s : Origin) (p : DownPast) (q : UpPast)
            → SoFar (D.past down.old client.old s) (U.past up.old s) (U.blames up.old s)
            (core self.old (D.state down.old) (U.state up.old)) p q
            → result ≡ Step.Moved
            → BranchGains branch (core self.old (D.state down.old) (U.state up.old))
            (core self.new (D.state down.new) (U.state up.new)) (D.link client.old)
            (D.link client.new) (U.link up.old) (U.link up.new) }

        // A step that does not fail leaves the count of the client's faults.
        ensures calm { says_failed result ≡ false
            → (D.link client.new).faults ≡ (D.link client.old).faults }
        ensures client_start { D.start client.new ≡ D.start client.old }
        ensures peer_start { U.start up.new ≡ U.start up.old }
        ensures lasts { Lasting D.lasts down.old down.new }
    {
        match branch {
            Branch::UpWrite => self.up_write(up),
            Branch::DownWrite => self.down_write(client, down),
            Branch::UpTake => self.up_take(up, down.upgraded()),
            Branch::DownTake => self.down_take(down),
            Branch::DownDrop => self.down_drop(),
            Branch::DownEnd => self.down_end(),
            Branch::DownClosed => self.down_closed(),
            Branch::UpRead => self.up_read(up, down.upgraded()),
            Branch::DownRead => self.down_read(client, down),
            Branch::UpFinish => self.up_finish(),
            Branch::DownFinish => self.down_finish(down),
            Branch::MessageUp => unreachable!(),
            Branch::MessageDown => unreachable!(),
        }
    }

    /// Takes one step by the branch, which is enabled. `Waited` changes nothing but the count of
    /// the side that had to wait; `Failed` marks both pipes, and no branch is enabled from then on.
    ///
    /// `Failed` with an error is one for which a side answers, the last that it told or the send
    /// error that was kept, one that tasks of the response are refused with, or that of a response
    /// that is done and cannot end.
    pub fn step<C, D: Down<C>, U: Up>(
        &mut self,
        client: &mut C,
        down: &mut D,
        up: &mut U,
        branch: Branch,
    ) -> Step
        requires { IsTrue (enabled (core self.old (D.state down.old) (U.state up.old)) branch) }

        // What the branch does, with the answer of its side.
        ensures exact { StepsTo branch (core self.old (D.state down.old) (U.state up.old))
            (core self.new (D.state down.new) (U.state up.new)) result }

        // The side of the branch told why it had to wait or failed; a send error is kept only from
        // such an answer.
        ensures cause { HasCause
            (told_of branch (core self.old (D.state down.old) (U.state up.old)))
            (told_of branch (core self.new (D.state down.new) (U.state up.new)))
            self.old.send_error result }
        ensures kept { KeepsSendError (U.state up.old).told (U.state up.new).told
            self.old.send_error self.new.send_error }

        // The answer says exactly whether a half failed, and whether both have finished.
        ensures tells { Tells result self.new }

        // The exchange so far goes on: what was put into a pipe is what was taken out and what is
        // held, and each list goes on from what it was; what is held of the response more than
        // before was read, and ends that came stay; behind the end of the request nothing is put,
        // where the step finished both directions were relayed, and where the request pipe is then
        // full without a send error, the upstream half can write, take or finish.
        ensures goes { (s : Origin) (p : DownPast) (q : UpPast)
            → SoFar (D.past down.old client.old s) (U.past up.old s) (U.blames up.old s)
            (core self.old (D.state down.old) (U.state up.old)) p q
            → Goes (D.past down.new client.new s) (D.blames down.new client.new s)
            (D.refuses down.new client.new s) (D.cannot_end down.new client.new s)
            (U.past up.new s) (U.blames up.new s) p q
            (core self.old (D.state down.old) (U.state up.old))
            (core self.new (D.state down.new) (U.state up.new)) result }

        // A step that waits leaves what can be taken. What it waits for is the link that its branch
        // asks: that answered so in this call; or it is silent, and neither link changed.
        ensures rests { (pause : Pause) → result ≡ Step.Waited pause → (b : Branch)
            → enabled (core self.new (D.state down.new) (U.state up.new)) b
            ≡ enabled (core self.old (D.state down.old) (U.state up.old)) b }
        ensures waits { result ≡ Step.Waited Pause.NotReady
            → WaitRose (D.link client.old) (D.link client.new) (U.link up.old) (U.link up.new) }
        ensures silent { result ≡ Step.Waited Pause.Silent
            → MeetsSilence branch (D.link client.old) (D.link client.new) (U.link up.old)
            (U.link up.new) }

        // A step asks one link once, or none. One that moved asked the link of its branch, or it
        // put a task into a pipe, took some out of one, brought an end, or called a hook; and one
        // that waits leaves the duplex as it was.
        ensures asks { Asks result (D.link client.old) (D.link client.new) (U.link up.old)
            (U.link up.new) }
        ensures moves { (s : Origin) (p : DownPast) (q : UpPast)
            → SoFar (D.past down.old client.old s) (U.past up.old s) (U.blames up.old s)
            (core self.old (D.state down.old) (U.state up.old)) p q
            → result ≡ Step.Moved
            → HasMoved branch (core self.old (D.state down.old) (U.state up.old))
            (core self.new (D.state down.new) (U.state up.new)) (D.link client.old)
            (D.link client.new) (U.link up.old) (U.link up.new) }
        ensures stands { (pause : Pause) → result ≡ Step.Waited pause
            → Stands (core self.old (D.state down.old) (U.state up.old))
            (core self.new (D.state down.new) (U.state up.new)) }

        // A read of the upstream that moved brought a task, or the link gave bytes.
        ensures brings { (s : Origin) (p : DownPast) (q : UpPast)
            → SoFar (D.past down.old client.old s) (U.past up.old s) (U.blames up.old s)
            (core self.old (D.state down.old) (U.state up.old)) p q
            → branch ≡ Branch.UpRead → result ≡ Step.Moved
            → Brings self.old self.new (U.link up.old) (U.link up.new) }

        // A step that does not fail leaves the count of the client's faults.
        ensures calm { says_failed result ≡ false
            → (D.link client.new).faults ≡ (D.link client.old).faults }
        // No call of a link changes what it was as it was handed out.
        ensures client_start { D.start client.new ≡ D.start client.old }
        ensures peer_start { U.start up.new ≡ U.start up.old }
        // Of the client's side there was a call at most, which leaves it as it says.
        ensures lasts { Lasting D.lasts down.old down.new }

        // The client's request and the upstream's response become done for their causes alone.
        ensures request_done { IsTrue (is_reading self.old.client_request)
            → is_reading self.new.client_request ≡ false
            → EndsRequest (core self.old (D.state down.old) (U.state up.old))
            (core self.new (D.state down.new) (U.state up.new)) }
        ensures response_done { self.old.upstream_response_done ≡ false
            → IsTrue self.new.upstream_response_done
            → EndsResponse (core self.old (D.state down.old) (U.state up.old))
            (core self.new (D.state down.new) (U.state up.new)) }

        // Where the response pipe is then full, the client's half can write, take or drop.
        ensures full { IsTrue (down_runs self.new) → length self.new.responses.tasks ≡ places
            → IsTrue (can_pass_on (core self.new (D.state down.new) (U.state up.new))) }

        // Each pipe holds four tasks at most, and the halves agree where none failed.
        ensures sound { IsSound (core self.old (D.state down.old) (U.state up.old))
            → IsSound (core self.new (D.state down.new) (U.state up.new)) }
    {
        self.step_by(client, down, up, branch)
    }
}

/// Puts the branch into the set, where that is so.
fn insert_if(set: &mut BranchSet, branch: Branch, on: bool)
    ensures { (b : Branch) → has set.new b ≡ (has set.old b || (is_same_branch branch b && on)) }
{
    if on {
        set.insert(branch);
    }
}
