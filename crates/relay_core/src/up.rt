//! The upstream's side of a duplex: what it means, and what each of its answers does.
ghost use Rattle.std.specs.Prelude.{◌≡◌, ◌++◌, ◌∷◌, ◌||◌, ◌<◌, ℕ, List, [], IsTrue, true, false};
ghost use Rattle.std.specs.List.{list_any};
ghost use Rattle.relay_tasks.specs.declared.error.Error.{Error};
ghost use Rattle.relay_tasks.specs.declared.error.ErrorSource.TheVariants.{Upstream};
ghost use Rattle.relay_tasks.specs.declared.fault.Fault.{Fault};
ghost use Rattle.relay_tasks.specs.declared.task.HttpTask.{HttpTask};
ghost use Rattle.relay_tasks.specs.declared.took.Took.{Took};
ghost use Rattle.relay_tasks.specs.Task.{is_end};
ghost use Rattle.relay_links.specs.Count.{up};
ghost use Rattle.relay_links.specs.Link.{LinkState, LinkStart};
ghost use Rattle.relay_core.specs.Past.{Origin, UpPast, GaveBytes, UpGoes, task_in, loses, error_of_took, error_of_put, error_of_result};
ghost use Rattle.relay_core.specs.Up.{UpState, ReadsTask, TakesPiece, Writes};
ghost use Rattle.relay_core.specs.Uses.{IsUsed, ReadUses, WriteUses};

use crate::told::Told;
use relay_links::{Put, UpKind};
use relay_tasks::{HttpTask, Pause, Result, Took};

/// The upstream's side: it gives the tasks of the response, and takes the pieces of the request. It
/// means its state; each answer changes what its relation names, and no more.
///
/// It also means what passed through it since its link was handed out, by a relation: each call
/// takes every past to one that goes on from it. `blames` says that the side answers for an error,
/// which it does from then on. `link` is its link as it stands: what an answer waits for stands in
/// it. `start` is that link as it was handed out, which no call changes. `cuts` says how a task is
/// cut out of what the link gave.
pub trait Up {
    ghost state: { Self → UpState };

    ghost past: { Self → Origin → UpPast → Type 0 };

    ghost blames: { Self → Origin → UpPast → Error → Type 0 };

    ghost link: { Self → LinkState };

    ghost start: { Self → LinkStart };

    ghost cuts: { Self → Self → Took HttpTask → Type 0 };

    /// Which kind of upstream it is.
    fn kind(&self) -> UpKind
        ensures { result ≡ (state self.now).kind };

    /// Whether its response began a tunnel.
    fn upgraded(&self) -> bool
        ensures { result ≡ (state self.now).upgraded };

    /// Reads a task of the response, asking the link once at most. Its end comes with a task, and
    /// `End` is never answered; no item is `Failed`. Before the end, `More` says that the link gave
    /// bytes in this call.
    fn read_task(&mut self) -> Took<HttpTask>
        ensures reads { ReadsTask (state self.old) (state self.new) result }
        ensures start { start self.new ≡ start self.old }
        ensures goes { (s : Origin) (q : UpPast) → past self.old s q
            → UpGoes (past self.new s) (blames self.old s) (blames self.new s) q
            (q.read ++ task_in result) q.taken q.lost (error_of_took result) }
        ensures gives { (s : Origin) (q : UpPast) → past self.old s q
            → list_any is_end q.read ≡ false → result ≡ Took.More
            → GaveBytes (link self.old) (link self.new) }
        ensures waits { result ≡ Took.Waited Pause.NotReady
            → (link self.new).waits ≡ up (link self.old).waits }
        ensures silent { result ≡ Took.Waited Pause.Silent
            → (link self.new ≡ link self.old) × ((link self.new).silent_on_read ≡ true) }
        ensures asks { ReadUses (link self.old) (link self.new) result }
        ensures cuts { cuts self.old self.new result };

    /// Takes a piece of the request, and queues its bytes for the upstream. An error says that the
    /// upstream cannot take it, or that the request ended short of its Content-Length; the piece
    /// counts as taken, and is lost.
    fn take_piece(&mut self, task: HttpTask) -> Result<()>
        ensures takes { TakesPiece (state self.old) (state self.new) result }
        ensures start { start self.new ≡ start self.old }
        ensures unasked { link self.new ≡ link self.old }
        ensures goes { (s : Origin) (q : UpPast) → past self.old s q
            → UpGoes (past self.new s) (blames self.old s) (blames self.new s) q
            q.read (q.taken ++ task ∷ []) (q.lost || loses result) (error_of_result result) };

    /// Whether output for the upstream is pending.
    fn has_pending(&self) -> bool
        ensures { result ≡ (state self.now).pending };

    /// Writes pending output once. Each answer but silence is one of the link in this call.
    fn write_pending(&mut self) -> Put
        requires { IsTrue (state self.old).pending }
        ensures writes { Writes (state self.old) (state self.new) result }
        ensures start { start self.new ≡ start self.old }
        ensures goes { (s : Origin) (q : UpPast) → past self.old s q
            → UpGoes (past self.new s) (blames self.old s) (blames self.new s) q
            q.read q.taken q.lost (error_of_put Upstream result) }
        ensures some { (n : ℕ) → result ≡ Put.Took n → 0 < n }
        ensures waits { result ≡ Put.NotReady → (link self.new).waits ≡ up (link self.old).waits }
        ensures silent { result ≡ Put.Silent
            → (link self.new ≡ link self.old) × ((link self.new).silent_on_write ≡ true) }
        ensures asks { WriteUses (link self.old) (link self.new) result }
        ensures fails { (fault : Fault) → result ≡ Put.Failed fault
            → IsUsed (link self.old) (link self.new) };

    /// What the side tells of its answers.
    fn told(&self) -> Told
        ensures { result ≡ (state self.now).told };

    /// What the side answers for does not depend on which tasks it gave.
    ghost unread: { (side : Self) (s : Origin) (q : UpPast) (read : List HttpTask) (e : Error)
        → blames side s q e → blames side s (record q { read = read }) e };
}
