//! A call of a hook in one line, as a report tells it: which hook, and what it answered.
ghost use Rattle.std.specs.Prelude.{◌≡◌};
ghost use Rattle.relay_tasks.specs.Log.{answer_of, line_of};

use crate::error::{Error, ErrorType};
use crate::hook::Hook;
use crate::log::{Item, LogEntry};

/// What a call of a hook answered: an error of that type, yes or no, or anything else.
#[derive(Clone, Copy, Debug, PartialEq, Eq)]
pub enum HookAnswer {
    Failed(ErrorType),
    Said(bool),
    Done,
}

/// A call of a hook, and what it answered.
#[derive(Clone, Copy, Debug, PartialEq, Eq)]
pub struct LogLine {
    pub hook: Hook,
    pub answer: HookAnswer,
}

/// The line of an entry.
pub(crate) fn line_of(entry: &LogEntry) -> LogLine
    ensures { result ≡ line_of entry.now }
{
    LogLine {
        hook: entry.hook,
        answer: answer_of(entry.error, &entry.output),
    }
}

/// What a call answered that ended with that error, or with that output.
fn answer_of(error: Option<Error>, output: &Item) -> HookAnswer
    ensures { result ≡ answer_of error output.now }
{
    match (error, output) {
        (Some(error), _) => HookAnswer::Failed(error.etype),
        (None, Item::Answer(said)) => HookAnswer::Said(*said),
        (
            None,
            Item::Nothing
            | Item::Request(_)
            | Item::Response(_, _)
            | Item::Piece(_, _)
            | Item::Trailers(_)
            | Item::Message(_, _)
            | Item::Addressed(_, _)
            | Item::Failure(_)
            | Item::Code(_, _)
            | Item::Status(_)
            | Item::Action(_)
            | Item::Text(_)
            | Item::Kept(_)
            | Item::Injected(_),
        ) => HookAnswer::Done,
    }
}
