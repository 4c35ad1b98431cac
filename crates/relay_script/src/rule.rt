//! Rules: what a script does at a hook.
ghost use Rattle.std.specs.Prelude.{◌≡◌, IfOk, IsOkUnless};
ghost use Rattle.relay_tasks.specs.Hooks.{same_hook};

use bytes::Bytes;
use http_header::{HeaderName, HeaderValue};
use relay_tasks::{ErrorType, Fail, Hook, MessageList, Result, RetryType};

/// What a rule does.
#[derive(Drop)]
pub enum Action {
    /// Puts the value in place of all those of the field.
    Set {
        name: HeaderName,
        value: HeaderValue,
    },
    /// Removes all values of the field.
    Remove {
        name: HeaderName,
    },
    /// Sets the status of a head that is not informational.
    Status(u16),
    /// Takes the piece away.
    Drop,
    /// Puts this text in place of a piece, where there is one.
    Text(Bytes),
    /// Answers the client with this status, and then says so or not.
    Answer {
        code: u16,
        say: bool,
    },
    /// Fails with an error of this type.
    Error(ErrorType),
    /// Sets the mark for a retry.
    Retry(RetryType),
    /// What a hook with a yes or no says.
    Say(bool),
    /// The value that is kept for the next request.
    Keep(u64),
    /// Messages to put in front of a forwarding, behind those of earlier rules.
    Inject {
        up: MessageList,
        down: MessageList,
    },
}

impl Action {
    /// An equal action.
    pub fn copy(&self) -> Result<Action>
        ensures ok { IfOk result (λ copy. copy ≡ self.now) }
        ensures memory { IsOkUnless result Fail.OutOfMemory }
    {
        match self {
            Action::Set { name, value } => Ok(Action::Set {
                name: name.clone()?,
                value: value.clone()?,
            }),
            Action::Remove { name } => Ok(Action::Remove {
                name: name.clone()?,
            }),
            Action::Status(code) => Ok(Action::Status(*code)),
            Action::Drop => Ok(Action::Drop),
            Action::Text(text) => Ok(Action::Text(text.clone()?)),
            Action::Answer { code, say } => Ok(Action::Answer {
                code: *code,
                say: *say,
            }),
            Action::Error(etype) => Ok(Action::Error(*etype)),
            Action::Retry(mark) => Ok(Action::Retry(*mark)),
            Action::Say(say) => Ok(Action::Say(*say)),
            Action::Keep(value) => Ok(Action::Keep(*value)),
            Action::Inject { up, down } => Ok(Action::Inject {
                up: up.copy()?,
                down: down.copy()?,
            }),
        }
    }
}

/// An action at a hook.
#[derive(Drop)]
pub struct Rule {
    pub hook: Hook,
    pub action: Action,
}

impl Rule {
    /// Whether the rule stands on this hook.
    pub fn is_on(&self, hook: Hook) -> bool
        ensures { result ≡ same_hook self.now.hook hook }
    {
        self.hook == hook
    }

    /// An equal rule.
    pub fn copy(&self) -> Result<Rule>
        ensures ok { IfOk result (λ copy. copy ≡ self.now) }
        ensures memory { IsOkUnless result Fail.OutOfMemory }
    {
        let action = self.action.copy()?;
        Ok(Rule {
            hook: self.hook,
            action,
        })
    }
}
