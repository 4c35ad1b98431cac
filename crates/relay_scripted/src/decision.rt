//! What the rules of a hook decide where the hook has nothing to change: whether it fails, what it
//! says, and the answer that it gives the client (RFC 9110, section 15).
ghost use Rattle.std.specs.Prelude.{◌≡◌, true, None, Some, IfErr, OnOk};
ghost use Rattle.relay_hooks.specs.Session.{MayAnswer};
ghost use Rattle.relay_script.specs.Lawful.{is_final_code};
ghost use Rattle.relay_scripted.specs.Decision.{failure_of, kept_by, reply_of, said_by};
ghost use Rattle.relay_scripted.specs.Reply.{AnswersWith, IsFinalReply};

use relay_hooks::{HttpModule, Session};
use relay_script::{Action, Answered, CheckedRules, apply_rules};
use relay_tasks::{Error, Hook, Result};

/// The answer that a rule gives the client, by its status; or none.
#[derive(Clone, Copy, Debug, PartialEq, Eq)]
pub enum Reply {
    Nothing,
    Status(u16),
}

/// What the rules answer the client.
impl Answered for Reply {
    ghost use Rattle.relay_scripted.specs.Decision.{on_reply};

    ghost told = { on_reply };

    fn tell(&mut self, action: &Action) {
        if let Action::Answer { code, .. } = action {
            *self = Reply::Status(*code);
        }
    }
}

/// Passes, or fails with the error of the hook's first rule that fails.
pub(crate) fn pass(rules: &CheckedRules, hook: Hook) -> std::result::Result<(), Error>
    ensures ok { OnOk result (failure_of rules.now hook ≡ None) }
    ensures err { IfErr result (λ error. failure_of rules.now hook ≡ Some error) }
{
    let mut failure: Option<Error> = None;
    apply_rules(rules.as_slice(), hook, &mut failure);
    match failure {
        None => Ok(()),
        Some(error) => Err(error),
    }
}

/// What the hook says, where it says that by default.
pub(crate) fn said(rules: &CheckedRules, hook: Hook, by_default: bool) -> bool
    ensures { result ≡ said_by rules.now hook by_default }
{
    let mut said = by_default;
    apply_rules(rules.as_slice(), hook, &mut said);
    said
}

/// The value that is kept for the next request.
pub(crate) fn kept(rules: &CheckedRules) -> Option<u64>
    ensures { result ≡ kept_by rules.now }
{
    let mut kept: Option<u64> = None;
    apply_rules(rules.as_slice(), Hook::PersistConnectionContext, &mut kept);
    kept
}

/// The answer that the hook gives the client. Its status is that of a final head.
pub(crate) fn reply_of(rules: &CheckedRules, hook: Hook) -> Reply
    ensures value { result ≡ reply_of rules.now hook }
    ensures lawful { IsFinalReply result }
{
    let mut reply = Reply::Nothing;
    apply_rules(rules.as_slice(), hook, &mut reply);
    reply
}

/// Queues the answer with that status, which is that of a final head.
///
/// The fault of a write that failed before: nothing is queued then, as where it is out of memory.
pub(crate) fn answer<M: HttpModule>(session: &mut Session<M>, code: u16) -> Result<()>
    requires code { is_final_code code ≡ true }
    requires owed { MayAnswer session.old.seen }
    ensures answers { AnswersWith code result session.old.seen session.new.seen }
{
    session.respond_error(code)
}
