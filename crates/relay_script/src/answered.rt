//! What the rules of a hook say in its answer: a yes or no, a value to keep, a mark, a failure.
ghost use Rattle.std.specs.Prelude.{◌≡◌};
ghost use Rattle.relay_script.specs.Fold.{apply_rules};

use crate::rule::{Action, Rule};
use relay_tasks::{Error, Hook};

/// A value that rules change, and at which no rule fails.
pub trait Answered {
    ghost use Rattle.relay_script.specs.declared.rule.Action.{Action};

    /// What an action makes of the value.
    ghost told: { Action → Self → Self };

    /// Does what the action says.
    fn tell(&mut self, action: &Action)
        ensures { self.new ≡ told action.now self.old };
}

/// Runs the rules of the hook in order.
pub fn apply_rules<T: Answered>(rules: &[Rule], hook: Hook, value: &mut T)
    ensures { value.new ≡ apply_rules T.told hook rules.now value.old }
{
    for rule in rules {
        if rule.is_on(hook) {
            value.tell(&rule.action);
        }
    }
}

/// What a hook with a yes or no says.
impl Answered for bool {
    ghost use Rattle.relay_script.specs.Actions.{on_said};

    ghost told = { on_said };

    fn tell(&mut self, action: &Action) {
        if let Action::Say(say) = action {
            *self = *say;
        }
    }
}

/// The value that is kept for the next request.
impl Answered for Option<u64> {
    ghost use Rattle.relay_script.specs.Actions.{on_kept};

    ghost told = { on_kept };

    fn tell(&mut self, action: &Action) {
        if let Action::Keep(value) = action {
            *self = Some(*value);
        }
    }
}

/// An error that is handed on.
impl Answered for Error {
    ghost use Rattle.relay_script.specs.Actions.{on_error};

    ghost told = { on_error };

    fn tell(&mut self, action: &Action) {
        if let Action::Retry(mark) = action {
            self.retry = *mark;
        }
    }
}

/// The failure of a hook that has nothing to change.
impl Answered for Option<Error> {
    ghost use Rattle.relay_script.specs.Actions.{on_failure};

    ghost told = { on_failure };

    fn tell(&mut self, action: &Action) {
        if let (Action::Error(etype), None) = (action, &*self) {
            *self = Some(Error::new(*etype));
        }
    }
}
