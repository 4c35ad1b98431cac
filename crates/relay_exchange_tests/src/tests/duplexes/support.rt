//! What both sides of these tests need.
ghost use Rattle.std.specs.Prelude.{◌≡◌, ◌++◌, ◌∷◌, [], false, IsTrue};
ghost use Rattle.relay_core.specs.Told.{failed};

use relay_core::Told;
use relay_tasks::{Error, Fail, HttpTask, TaskList};

/// A side that has told nothing.
pub(super) const NOTHING_TOLD: Told = Told {
    waits: 0,
    silences: 0,
    errors: 0,
    last: None,
};

/// One more error.
pub(super) fn tell(told: Told, error: Error) -> Told
    ensures { result ≡ failed (Fail.Error error) told }
{
    Told {
        waits: told.waits,
        silences: told.silences,
        errors: told.errors.saturating_add(1),
        last: Some(error),
    }
}

/// Puts the task behind the others, where there is memory.
pub(super) fn push(tasks: &mut TaskList, task: HttpTask) -> bool
    ensures pushed { IsTrue result → tasks.new ≡ tasks.old ++ task ∷ [] }
    ensures same { result ≡ false → tasks.new ≡ tasks.old }
{
    tasks.push(task).is_ok()
}
