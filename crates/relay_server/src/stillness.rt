//! Whether a connection can move on before the outside has been waited for.
ghost use Rattle.std.specs.Prelude.{◌≡◌, ◌⊎◌};

use relay_links::Branch;
use relay_proxy::RunStep;

/// What the last turns of a connection say. One turn that waited says little, since the next one
/// may ask another link: only where the schedule has come round to the branch with which the
/// waiting began, each of them was asked in vain.
#[derive(Clone, Copy, PartialEq, Eq)]
pub(crate) enum Stillness {
    /// The last turn moved something, or none was taken.
    Moving,
    /// Each turn has waited since the schedule picked this branch.
    WaitingSince(Option<Branch>),
    /// Each branch that may be taken waits.
    Still,
}

impl Stillness {
    /// What one more turn says, before which the schedule picked that branch last.
    pub(crate) fn after(self, step: RunStep, picked: Option<Branch>) -> Stillness
        ensures moved { step ≡ RunStep.Moved → result ≡ Stillness.Moving }
        ensures ended { step ≡ RunStep.Ended → result ≡ Stillness.Moving }
        ensures still { result ≡ Stillness.Still
            → (self ≡ Stillness.Still) ⊎ (self ≡ Stillness.WaitingSince picked) }
    {
        match step {
            RunStep::Moved | RunStep::Ended => Stillness::Moving,
            RunStep::Waited(_) => self.after_wait(picked),
        }
    }

    /// What one more turn says that waited.
    fn after_wait(self, picked: Option<Branch>) -> Stillness
        ensures { result ≡ Stillness.Still
            → (self ≡ Stillness.Still) ⊎ (self ≡ Stillness.WaitingSince picked) }
    {
        match self {
            Stillness::Moving => Stillness::WaitingSince(picked),
            Stillness::WaitingSince(first) if first == picked => Stillness::Still,
            Stillness::WaitingSince(first) => Stillness::WaitingSince(first),
            Stillness::Still => Stillness::Still,
        }
    }
}
