//! The client's side behind the filters of an application: the pieces of the request that the inner
//! side gives pass them, and so do the tasks of the response that it takes.
ghost use Rattle.std.specs.Prelude.{◌≡◌, ◌⊎◌, drop, length, is_some, false};
ghost use Rattle.relay_sides.specs.Client.{CannotEnd, ClientBlames, ClientRefuses};
ghost use Rattle.relay_calls.specs.Log.{IsAllowed};
ghost use Rattle.relay_filters.specs.Response.{SomeAllow};
ghost use Rattle.relay_filters.specs.Hooked.{BlamesOver, HookedPast, InnerPast, Lasts, LedTo, RefusesOver, SameNames, is_lost, seen_by, state_of_side, state_over, stays_of};

use crate::lent::{pass_piece, pass_tasks};
use crate::request::either;
use crate::rested::{Rested, still_stood};
use relay_core::{Down, Piece, Told};
use relay_hooks::{ProxyHttp, Session};
use relay_links::{Put, UpKind};
use relay_session::Front;
use relay_tasks::{ErrorSource, Fail, Result, TaskList, Took};

/// The client's side behind the filters of an application. Each call stands in the log of the
/// session. Each is shown the client's own session, which is lent to it and read and written by
/// none but the inner side.
///
/// Each piece of the request passes the modules' filter of request bodies, where modules were made,
/// and then the application's. What these leave empty puts nothing, and where they take a piece away
/// the request ends.
///
/// Each batch of the response passes the application's filters, all its tasks, and then those of
/// the modules, where modules were made. What these made of it is given to the inner side, the
/// whole batch, or nothing of it where one does not pass.
///
/// What the filters of pieces ask for as a delay is summed, and taken by its caller.
///
/// Behind an error of a filter, and behind a batch that was refused, nothing is read or taken.
/// Where memory was wanted in a filter, which may leave anything in the session that it was lent,
/// nothing is written either.
///
/// It is made for one turn, over the session, the context and the rest of the side that are held
/// between turns: what it did stands in them when it ends.
#[derive(Drop)]
pub struct Hooked<'a, SV: ProxyHttp> {
    app: &'a SV,
    // What hooks are shown: between their calls a stand-in is in the place of the client's session.
    session: &'a mut Session<SV::Modules>,
    ctx: &'a mut SV::CTX,
    side: &'a mut Rested,
}

impl<'a, SV: ProxyHttp> Hooked<'a, SV> {
    /// The side for that application, over that session and that context: `side` is the rest of it.
    pub fn over(
        app: &'a SV,
        session: &'a mut Session<SV::Modules>,
        ctx: &'a mut SV::CTX,
        side: &'a mut Rested,
    ) -> Hooked<'a, SV>
        ensures app { result.app ≡ app.entry }
        ensures session { result.session ≡ session.entry }
        ensures ctx { result.ctx ≡ ctx.entry }
        ensures side { result.side ≡ side.entry }
    {
        Hooked {
            app,
            session,
            ctx,
            side,
        }
    }
}

impl<'a, SV: ProxyHttp, F: Front> Down<F> for Hooked<'a, SV> {
    ghost state = { λ f. state_over (state_of_side f.side.now.inner) f.side.now.ended
        f.side.now.stopped f.side.now.was f.side.now.told f.session.now.seen.log };

    ghost past = { λ f client s p. HookedPast
        (InnerPast f.side.now.stopped s (F.state client) (F.ahead client) f.side.now.inner)
        s.head.method f.side.now.inner.session s.called f.session.now.seen.log f.side.now.of_head
        f.side.now.at_first f.side.now.ended false f.side.now.refused f.side.now.stood
        f.side.now.stopped f.side.now.told f.side.now.inner.told p };

    ghost blames = { λ f client s p e. BlamesOver
        (InnerPast f.side.now.stopped s (F.state client) (F.ahead client) f.side.now.inner)
        (λ q. ClientBlames s q (F.state client)) f.side.now.stopped f.side.now.told
        (drop (length s.called) f.session.now.seen.log) p e };

    ghost refuses = { λ f client s p left e. RefusesOver
        (InnerPast f.side.now.stopped s (F.state client) (F.ahead client) f.side.now.inner)
        (λ q. ClientRefuses s q (F.state client) f.side.now.inner.told) f.side.now.of_head
        f.side.now.stood (is_some f.session.now.modules) f.side.now.refused f.side.now.stopped
        f.side.now.told s.called f.session.now.seen.log p left e };

    ghost cannot_end = { λ f client s p e. BlamesOver
        (InnerPast f.side.now.stopped s (F.state client) (F.ahead client) f.side.now.inner)
        (λ q x. ClientBlames s q (F.state client) x ⊎ CannotEnd s q f.side.now.inner.told x)
        f.side.now.stopped f.side.now.told (drop (length s.called) f.session.now.seen.log) p e };

    ghost link = { F.state };

    ghost start = { F.start };

    // A piece leads to the modules' filter first, where modules stood as the call began. It also
    // holds what it was made over.
    ghost lasts = { λ old new. Lasts
        (IsAllowed (SV.allows old.app.now) (SomeAllow SV.Modules.allows))
        (stays_of old.app.now old.side.now) (stays_of new.app.now new.side.now)
        (is_lost old.side.now.stopped) (is_lost new.side.now.stopped)
        (seen_by old.session.now.seen old.side.now.inner.session)
        (SV.mark_of old.app.now old.ctx.now)
        (seen_by new.session.now.seen new.side.now.inner.session)
        (SV.mark_of new.app.now new.ctx.now)
        × (SameNames old.session.ghost_name new.session.ghost_name old.ctx.ghost_name
        new.ctx.ghost_name old.side.ghost_name new.side.ghost_name
        × LedTo (is_some old.session.now.modules) old.session.now.seen new.session.now.seen) };

    fn may_read(&self) -> bool {
        !(Down::<F>::body_done(self) && self.side.inner.is_answered())
    }

    fn body_done(&self) -> bool {
        match self.side.stopped {
            Some(_) => self.side.was.body_done,
            None => Down::<F>::body_done(&self.side.inner),
        }
    }

    fn upgraded(&self) -> bool {
        false
    }

    fn read_piece(&mut self, client: &mut F, idle: bool) -> Took<Piece> {
        match self.side.stopped {
            Some(why) => {
                self.side.told = self.side.told.failed(why);
                Took::Failed(why)
            }
            None => {
                if !self.side.inner.session().has_head() {
                    return Took::More;
                }
                let was = self.side.shows::<F>();
                match self.side.inner.read_piece(client, idle) {
                    Took::Item(piece) => {
                        let ended = self.side.ended;
                        match pass_piece(
                            self.app,
                            self.session,
                            self.ctx,
                            &mut self.side.inner,
                            ended,
                            piece,
                        ) {
                            Ok(made) => {
                                self.side.ended = either(ended, made.upstream_end);
                                Took::Item(made)
                            }
                            Err(why) => {
                                self.side.stop(why, was);
                                Took::Failed(why)
                            }
                        }
                    }
                    Took::More => Took::More,
                    Took::Waited(pause) => {
                        self.side.told = self.side.told.paused(pause);
                        Took::Waited(pause)
                    }
                    Took::End => Took::End,
                    Took::Failed(why) => {
                        self.side.told = self.side.told.failed(why);
                        Took::Failed(why)
                    }
                }
            }
        }
    }

    fn take_batch(&mut self, tasks: TaskList, kind: UpKind) -> Result<bool> {
        match self.side.refused_at_once(&tasks) {
            Some(why) => {
                self.side.told = self.side.told.failed(why);
                Err(why)
            }
            None => {
                let was = self.side.shows::<F>();
                let of_head = self.side.of_head;
                match pass_tasks(
                    self.app,
                    self.session,
                    self.ctx,
                    &mut self.side.inner,
                    of_head,
                    tasks,
                ) {
                    Ok(made) => {
                        self.side.stood = still_stood(self.side.stood, self.session);
                        match Down::<F>::take_batch(&mut self.side.inner, made, kind) {
                            Ok(done) => Ok(done),
                            Err(why) => {
                                self.side.refused = true;
                                self.side.told = self.side.told.failed(why);
                                Err(why)
                            }
                        }
                    }
                    Err(why) => {
                        self.side.stop(why, was);
                        Err(why)
                    }
                }
            }
        }
    }

    fn has_pending(&self) -> bool {
        if self.side.is_lost() {
            return self.side.was.pending;
        }
        Down::<F>::has_pending(&self.side.inner)
    }

    fn write_pending(&mut self, client: &mut F) -> Put {
        if self.side.is_lost() {
            return Put::OutOfMemory;
        }
        let put = self.side.inner.write_pending(client);
        self.side.told = self.side.told.written(ErrorSource::Downstream, put);
        put
    }

    fn finish(&mut self) -> Result<()> {
        if self.side.is_lost() {
            self.side.told = self.side.told.failed(Fail::OutOfMemory);
            return Err(Fail::OutOfMemory);
        }
        match Down::<F>::finish(&mut self.side.inner) {
            Ok(()) => Ok(()),
            Err(why) => {
                self.side.told = self.side.told.failed(why);
                Err(why)
            }
        }
    }

    fn told(&self) -> Told {
        self.side.told
    }
}
