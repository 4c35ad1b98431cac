//! One turn of a duplex: the branch that a schedule picks, and where its link is silent the next
//! enabled ones, going round.
ghost use Rattle.std.specs.Prelude.{◌≡◌, ◌⊎◌, ◌≤◌, false, IsTrue};
ghost use Rattle.relay_core.specs.Asked.{IsQuiet, WaitRose};
ghost use Rattle.relay_core.specs.Causes.{Tells, says_failed};
ghost use Rattle.relay_core.specs.Down.{Lasting};
ghost use Rattle.relay_core.specs.Moves.{SoFar, Goes};
ghost use Rattle.relay_core.specs.Past.{Origin, DownPast, UpPast};
ghost use Rattle.relay_core.specs.Sound.{IsSound};
ghost use Rattle.relay_core.specs.Table.{core, is_failed, is_finished};
ghost use Rattle.relay_core.specs.Uses.{Asks};
ghost use Rattle.relay_exchange.specs.Exchange.{HasMoved, IsSilentLink, TellsOn};

use relay_core::{Down, Duplex, Step, Up};
use relay_links::{BRANCHES, Branch, Schedule};
use relay_tasks::{Fail, Pause};

/// One turn. The branch is that of the answer; none where all enabled ones are silent.
///
/// That no branch is enabled comes only where both halves have finished or one failed, so no turn
/// of an exchange meets it; the answer then is out of memory.
pub(crate) fn go_round<C, D: Down<C>, U: Up, H: Schedule>(
    duplex: &mut Duplex,
    client: &mut C,
    down: &mut D,
    up: &mut U,
    schedule: &mut H,
) -> (Step, Option<Branch>)
    // The exchange so far goes on, where neither half failed and not both have finished.
    ensures goes { (s : Origin) (p : DownPast) (q : UpPast)
        → SoFar (D.past down.old client.old s) (U.past up.old s) (U.blames up.old s)
        (core duplex.old (D.state down.old) (U.state up.old)) p q
        → is_finished duplex.old ≡ false → is_failed duplex.old.word ≡ false
        → Goes (D.past down.new client.new s) (D.blames down.new client.new s)
        (D.refuses down.new client.new s) (D.cannot_end down.new client.new s)
        (U.past up.new s) (U.blames up.new s) p q
        (core duplex.old (D.state down.old) (U.state up.old))
        (core duplex.new (D.state down.new) (U.state up.new)) result.0 }

    // The answer says exactly whether a half failed, and whether both have finished.
    ensures tells { IsSound (core duplex.old (D.state down.old) (U.state up.old))
        → is_finished duplex.old ≡ false → is_failed duplex.old.word ≡ false
        → Tells result.0 duplex.new }

    // No call of a link changes what it was as it was handed out.
    ensures client_start { D.start client.new ≡ D.start client.old }
    ensures peer_start { U.start up.new ≡ U.start up.old }

    // The calls of the client's side leave it as each of them says.
    ensures lasts { Lasting D.lasts down.old down.new }

    // It waits only where a link answered so in this turn.
    ensures waits { result.0 ≡ Step.Waited Pause.NotReady
        → WaitRose (D.link client.old) (D.link client.new) (U.link up.old) (U.link up.new) }

    // Silence is that of a link.
    ensures silent { result.0 ≡ Step.Waited Pause.Silent
        → IsSilentLink (D.link client.new) ⊎ IsSilentLink (U.link up.new) }

    // In silence each branch that can be taken asks a link that is silent on it, and neither link
    // changed.
    ensures quiet { result.0 ≡ Step.Waited Pause.Silent
        → IsQuiet (core duplex.new (D.state down.new) (U.state up.new)) (D.link client.new)
        (U.link up.new) × (D.link client.new ≡ D.link client.old)
        × (U.link up.new ≡ U.link up.old) }

    // It asks one link once, or none; and one that moved asked the link of its branch, or it moved
    // a task, brought an end or called a hook.
    ensures asks { Asks result.0 (D.link client.old) (D.link client.new) (U.link up.old)
        (U.link up.new) }
    ensures moves { (s : Origin) (p : DownPast) (q : UpPast)
        → SoFar (D.past down.old client.old s) (U.past up.old s) (U.blames up.old s)
        (core duplex.old (D.state down.old) (U.state up.old)) p q
        → result.0 ≡ Step.Moved
        → HasMoved result.1 (core duplex.old (D.state down.old) (U.state up.old))
        (core duplex.new (D.state down.new) (U.state up.new)) (D.link client.old)
        (D.link client.new) (U.link up.old) (U.link up.new) }

    // The client's side tells no error but the one that a turn fails with.
    ensures errors { TellsOn (D.state down.old).told (D.state down.new).told result.0 }

    // A turn that does not fail takes no call of a hook back.
    ensures calls { says_failed result.0 ≡ false
        → (D.state down.old).calls ≤ (D.state down.new).calls }

    // A turn that does not fail leaves the count of the client's faults.
    ensures calm { says_failed result.0 ≡ false
        → (D.link client.new).faults ≡ (D.link client.old).faults }
{
    let Some(first) = duplex.choose(down, up, schedule) else {
        return (Step::Failed(Fail::OutOfMemory), None);
    };
    let step = duplex.step(client, down, up, first);
    if !is_silent(step) {
        return (step, Some(first));
    }
    for turn in 1..BRANCHES.len() {
        let branch = BRANCHES[(first.place() as usize + turn) % BRANCHES.len()];
        if !duplex.enabled(down, up, branch) {
            continue;
        }
        let step = duplex.step(client, down, up, branch);
        if !is_silent(step) {
            return (step, Some(branch));
        }
    }
    (Step::Waited(Pause::Silent), None)
}

/// Whether the answer is that of a silent link.
fn is_silent(step: Step) -> bool
    ensures yes { IsTrue result → step ≡ Step.Waited Pause.Silent }
    ensures no { step ≡ Step.Waited Pause.Silent → IsTrue result }
{
    match step {
        Step::Moved => false,
        Step::Waited(Pause::NotReady) => false,
        Step::Waited(Pause::Silent) => true,
        Step::Finished => false,
        Step::Failed(_) => false,
    }
}
