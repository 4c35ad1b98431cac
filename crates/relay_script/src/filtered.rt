//! What the rules of a filter change: heads, pieces of a body, messages (RFC 9110, section 6).
ghost use Rattle.std.specs.Prelude.{◌≡◌, ◌++◌, Bool, true, IfOk, OnErr, IsOkUnless};
ghost use Rattle.std.specs.List.{list_all};
ghost use Rattle.relay_script.specs.Fold.{Answers, Keeps, Outcome, run_rules};
ghost use Rattle.relay_script.specs.declared.rule.Action.{Action};

use crate::rule::{Action, Rule};
use bytes::Bytes;
use relay_tasks::{
    Error, Fail, Hook, Injected, MessageList, RequestHeader, ResponseHeader, Result,
};

/// A value that rules change, and at which a rule may fail.
pub trait Filtered {
    /// What an action makes of the value.
    ghost changed: { Action → Self → Outcome Self };

    /// Does what the action says. Where it fails the value stays as it was.
    fn change(&mut self, action: &Action) -> Result<()>
        ensures answers { Answers result self.new (changed action.now self.old) }
        ensures err { OnErr result (self.new ≡ self.old) };
}

/// Runs the rules of the hook in order, up to the first that fails.
///
/// Where memory is wanted, some of the rules may have changed the value. Whatever it answers, what
/// no rule changes stays.
pub fn run_rules<T: Filtered>(rules: &[Rule], hook: Hook, value: &mut T) -> Result<()>
    ensures answers { Answers result value.new (run_rules T.changed hook rules.now value.old) }
    ensures keeps { (may : Action → Bool) (test : T → Bool) → Keeps T.changed may test
        → list_all (λ rule. may rule.action) rules.now ≡ true → test value.new ≡ test value.old }
{
    for rule in rules {
        if rule.is_on(hook) {
            value.change(&rule.action)?;
        }
    }
    Ok(())
}

/// An action that does not stand on the filters of a request's head leaves it.
impl Filtered for RequestHeader {
    ghost use Rattle.relay_script.specs.Actions.{on_request};

    ghost changed = { on_request };

    fn change(&mut self, action: &Action) -> Result<()> {
        match action {
            Action::Set { name, value } => self.insert_header(name.clone()?, value.clone()?),
            Action::Remove { name } => {
                let _removed = self.remove_header(name);
                Ok(())
            }
            Action::Error(etype) => Err(Fail::Error(Error::new(*etype))),
            _ => Ok(()),
        }
    }
}

/// An action that does not stand on the filters of a response's head leaves it.
impl Filtered for ResponseHeader {
    ghost use Rattle.relay_script.specs.Actions.{on_response};

    ghost changed = { on_response };

    fn change(&mut self, action: &Action) -> Result<()> {
        match action {
            Action::Set { name, value } => self.insert_header(name.clone()?, value.clone()?),
            Action::Remove { name } => {
                let _first = self.remove_header(name);
                Ok(())
            }
            Action::Status(code) => {
                if self.is_informational() {
                    return Ok(());
                }
                self.set_status(*code)?;
                Ok(())
            }
            Action::Error(etype) => Err(Fail::Error(Error::new(*etype))),
            _ => Ok(()),
        }
    }
}

/// An action that does not stand on the filters of a body leaves the piece.
impl Filtered for Option<Bytes> {
    ghost use Rattle.relay_script.specs.Actions.{on_piece};

    ghost changed = { on_piece };

    fn change(&mut self, action: &Action) -> Result<()> {
        match action {
            Action::Drop => {
                *self = None;
                Ok(())
            }
            Action::Text(text) => {
                if self.is_some() {
                    *self = Some(text.clone()?);
                }
                Ok(())
            }
            Action::Error(etype) => Err(Fail::Error(Error::new(*etype))),
            _ => Ok(()),
        }
    }
}

/// An action that does not stand on a forwarding leaves what is put in front of it.
impl Filtered for Injected {
    ghost use Rattle.relay_script.specs.Actions.{on_injected};

    ghost changed = { on_injected };

    fn change(&mut self, action: &Action) -> Result<()> {
        match action {
            Action::Inject { up, down } => {
                let to_upstream = joined(&self.to_upstream, up)?;
                let to_downstream = joined(&self.to_downstream, down)?;
                *self = Injected {
                    to_upstream,
                    to_downstream,
                };
                Ok(())
            }
            Action::Error(etype) => Err(Fail::Error(Error::new(*etype))),
            _ => Ok(()),
        }
    }
}

/// The messages of both lists in order.
fn joined(list: &MessageList, more: &MessageList) -> Result<MessageList>
    ensures ok { IfOk result (λ joined. joined ≡ list.now ++ more.now) }
    ensures memory { IsOkUnless result Fail.OutOfMemory }
{
    let mut joined = list.copy()?;
    let mut rest = more.copy()?;
    while let Some(message) = rest.take_first() {
        joined.push(message)?;
    }
    Ok(joined)
}
