//! The client's side of a duplex: what it means, and what each of its answers does.
ghost use Rattle.std.specs.Prelude.{◌≡◌, ◌⊎◌, ◌++◌, ◌∷◌, ◌<◌, [], List, ℕ, None, IsTrue, true};
ghost use Rattle.relay_tasks.specs.declared.error.Error.{Error};
ghost use Rattle.relay_tasks.specs.declared.error.ErrorSource.TheVariants.{Downstream};
ghost use Rattle.relay_tasks.specs.declared.task.HttpTask.{HttpTask};
ghost use Rattle.relay_links.specs.Count.{up};
ghost use Rattle.relay_links.specs.Link.{LinkState, LinkStart};
ghost use Rattle.relay_core.specs.Down.{DownState, may_read, ReadsPiece, TakesBatch, Writes, Finishes};
ghost use Rattle.relay_core.specs.Uses.{PutsOrCalls, ReadUses, WriteUses};
ghost use Rattle.relay_core.specs.Past.{Origin, DownPast, GaveBytes, DownGoes, BatchGoes, put_in, closing_in, error_of_took, error_of_put, error_of_result};

use crate::piece::Piece;
use crate::told::Told;
use relay_links::{Put, UpKind};
use relay_tasks::{Pause, Result, TaskList, Took};

/// The client's side: it gives pieces of the request, filtered, and takes the tasks of the
/// response. It means its state; each answer changes what its relation names, and no more.
///
/// It also means what passed through it since its request began, by a relation: `past` holds of
/// more than one past, since a side keeps none, and each call takes every past to one that goes on
/// from it. `blames` says that the side answers for an error, `refuses` that it refuses these tasks
/// behind those that it was given, and `cannot_end` that the response cannot end where it stands.
/// `link` is the client's link as it stands: what an answer waits for stands in it. `start` is that
/// link as it was handed out, which no call changes. `lasts` says what each call leaves of the side
/// as it was, such as the head of its request, and what it only adds to.
pub trait Down<C> {
    ghost state: { Self → DownState };

    ghost past: { Self → C → Origin → DownPast → Type 0 };

    ghost blames: { Self → C → Origin → DownPast → Error → Type 0 };

    ghost refuses: { Self → C → Origin → DownPast → List HttpTask → Error → Type 0 };

    ghost cannot_end: { Self → C → Origin → DownPast → Error → Type 0 };

    ghost link: { C → LinkState };

    ghost start: { C → LinkStart };

    ghost lasts: { Self → Self → Type 0 };

    /// Whether the client may be read: not where its request has ended, and it waits for the answer
    /// to an upgrade or has its whole response.
    fn may_read(&self) -> bool
        ensures { result ≡ may_read (state self.now) };

    /// Whether the client's body has ended.
    fn body_done(&self) -> bool
        ensures { result ≡ (state self.now).body_done };

    /// Whether the client was upgraded: a 101 was accepted, and its bytes are a tunnel's.
    fn upgraded(&self) -> bool
        ensures { result ≡ (state self.now).upgraded };

    /// Reads a piece of the request and filters it. `idle` says that the request has ended: the
    /// client is then only watched. The end comes with a piece, and `End` is never answered. The
    /// link is asked once at most: `More` says that it gave bytes in this call. Each piece puts a
    /// task, or hooks were called with it: so a filter may leave nothing.
    fn read_piece(&mut self, client: &mut C, idle: bool) -> Took<Piece>
        requires { IsTrue (may_read (state self.old)) }
        ensures reads { ReadsPiece (state self.old) (state self.new) result }
        ensures start { start client.new ≡ start client.old }
        ensures lasts { lasts self.old self.new }
        ensures goes { (s : Origin) (p : DownPast) → past self.old client.old s p
            → DownGoes (past self.new client.new s) (blames self.new client.new s)
            (p.put ++ put_in (state self.old).upgraded result) p.batched p.closing
            (error_of_took result) }
        ensures gives { (s : Origin) (p : DownPast) → past self.old client.old s p
            → result ≡ Took.More → GaveBytes (link client.old) (link client.new) }
        ensures waits { result ≡ Took.Waited Pause.NotReady
            → (link client.new).waits ≡ up (link client.old).waits }
        ensures silent { result ≡ Took.Waited Pause.Silent
            → (link client.new ≡ link client.old) × ((link client.new).silent_on_read ≡ true) }
        ensures asks { ReadUses (link client.old) (link client.new) result }
        ensures puts { (s : Origin) (p : DownPast) → past self.old client.old s p
            → (piece : Piece) → result ≡ Took.Item piece
            → PutsOrCalls (state self.old) (state self.new) piece }
        ensures calm { error_of_took result ≡ None
            → (link client.new).faults ≡ (link client.old).faults };

    /// Filters the tasks in their order and queues them for the client. Ok says whether its
    /// response is done. An error queues none of them, or those in front of a refused one; a task
    /// `Failed` comes alone and is answered with its error.
    fn take_batch(&mut self, tasks: TaskList, kind: UpKind) -> Result<bool>
        ensures takes { TakesBatch (state self.old) tasks (state self.new) result }
        ensures lasts { lasts self.old self.new }
        ensures goes { (client : C) (s : Origin) (p : DownPast)
            → past self.old client s p
            → BatchGoes (past self.new client s) (blames self.new client s)
            (refuses self.new client s) p tasks result };

    /// Whether output for the client is pending.
    fn has_pending(&self) -> bool
        ensures { result ≡ (state self.now).pending };

    /// Writes pending output once.
    fn write_pending(&mut self, client: &mut C) -> Put
        requires { IsTrue (state self.old).pending }
        ensures writes { Writes (state self.old) (state self.new) result }
        ensures start { start client.new ≡ start client.old }
        ensures lasts { lasts self.old self.new }
        ensures goes { (s : Origin) (p : DownPast) → past self.old client.old s p
            → DownGoes (past self.new client.new s) (blames self.new client.new s)
            p.put p.batched p.closing (error_of_put Downstream result) }
        ensures some { (n : ℕ) → result ≡ Put.Took n → 0 < n }
        ensures waits { result ≡ Put.NotReady
            → (link client.new).waits ≡ up (link client.old).waits }
        ensures silent { result ≡ Put.Silent
            → (link client.new ≡ link client.old) × ((link client.new).silent_on_write ≡ true) }
        ensures asks { WriteUses (link client.old) (link client.new) result }
        ensures calm { error_of_put Downstream result ≡ None
            → (link client.new).faults ≡ (link client.old).faults };

    /// Ends the response's body. Where it was ended already this queues nothing.
    fn finish(&mut self) -> Result<()>
        ensures ends { Finishes (state self.old) (state self.new) result }
        ensures lasts { lasts self.old self.new }
        ensures goes { (client : C) (s : Origin) (p : DownPast)
            → past self.old client s p
            → DownGoes (past self.new client s) (cannot_end self.new client s)
            p.put p.batched (p.closing ++ closing_in result) (error_of_result result) };

    /// What the side tells of its answers.
    fn told(&self) -> Told
        ensures { result ≡ (state self.now).told };
}
