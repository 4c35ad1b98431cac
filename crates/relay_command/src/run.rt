//! A run of the program: a script is read from a source, run, and reported to a sink.
ghost use Rattle.std.specs.Prelude.{◌≡◌, ◌⊎◌, map, IfOk, None, Some};
ghost use Rattle.relay_links.specs.Count.{Rose};
ghost use Rattle.relay_command.specs.Transfer.{WritesOut};
ghost use Rattle.relay_command.specs.Words.{IsRefused, AsksToServe};
ghost use Rattle.relay_command.specs.Run.{status_code, status_after, Answers, EndsBytes, EndsScript, EndsCommand, TellsNoScript, TellsTooMany};
ghost use Rattle.relay_command.specs.declared.run.Status.{Status};
ghost use Rattle.relay_command.specs.declared.transfer.Output.{Output};

use crate::exchange::run_exchanges;
use crate::report::report_text;
use crate::transfer::{Input, Output, read_all, write_all};
use crate::words::{Command, parse_words};
use relay_json::{ScriptError, read_script};
use relay_links::{Sink, Source};
use std::alloc::Global;

/// What is written where the words are refused.
const USAGE: &[u8] = b"usage: relay run | relay gen N | relay pair | relay serve PORT PEER\n";

/// What is written where the script is refused.
const SCRIPT_REFUSED: &[u8] = b"script refused\n";

/// How the program ends.
#[derive(Clone, Copy, Debug, PartialEq, Eq)]
pub enum Status {
    /// The report is written.
    Reported,
    /// The source gives no script.
    ScriptRefused,
    /// A read of the source failed.
    SourceFailed,
    /// A write to the sink failed.
    SinkFailed,
    OutOfMemory,
    /// The words ask for nothing that the program does.
    WordsRefused,
}

impl Status {
    /// The number that the program ends with.
    pub fn code(self) -> u8
        ensures { result ≡ status_code self }
    {
        match self {
            Status::Reported => 0,
            Status::ScriptRefused => 2,
            Status::SourceFailed => 3,
            Status::SinkFailed => 4,
            Status::OutOfMemory => 5,
            Status::WordsRefused => 6,
        }
    }
}

/// Does what the words ask for, which is not to serve, and answers the number of the status that
/// the program ends with.
pub fn run_command<S: Source, T: Sink>(
    alloc: Global,
    words: &[Vec<u8>],
    source: &mut S,
    sink: &mut T,
) -> u8
    requires { ¬ (AsksToServe (map (λ word. word.items) words.now)) }
    ensures ends { (status : Status) × (result ≡ status_code status)
        × EndsCommand (map (λ word. word.items) words.now)
        (S.state source.old) (S.state source.new) (T.state sink.old) (T.state sink.new) status }

    // The words are refused wherever they ask for nothing, but for a sink's fault or memory.
    ensures refuses_words { IsRefused (map (λ word. word.items) words.now)
        → ¬ Rose (T.state sink.old).faults (T.state sink.new).faults
        → (result ≡ 6) ⊎ (result ≡ 5) }
{
    match parse_words(words) {
        Some(Command::Run) => run_script(alloc, source, sink),
        Some(Command::Gen(_) | Command::Pair | Command::Serve(_, _)) => unreachable!(),
        None => write_text(sink, USAGE, Status::WordsRefused).code(),
    }
}

/// Runs the script that the source gives and writes the report, and answers the number of the
/// status.
pub fn run_script<S: Source, T: Sink>(alloc: Global, source: &mut S, sink: &mut T) -> u8
    ensures ends { (status : Status) × (result ≡ status_code status)
        × EndsScript (S.state source.old) (S.state source.new)
        (T.state sink.old) (T.state sink.new) status }

    // A script is refused wherever there is none, but for a sink's fault or memory.
    ensures refuses_script { TellsNoScript (S.state source.old) (S.state source.new)
        → ¬ Rose (T.state sink.old).faults (T.state sink.new).faults
        → (result ≡ 2) ⊎ (result ≡ 5) }
    ensures refuses_length { TellsTooMany (S.state source.old) (S.state source.new)
        → ¬ Rose (T.state sink.old).faults (T.state sink.new).faults
        → (result ≡ 2) ⊎ (result ≡ 5) }
{
    end_of_script(alloc, source, sink).code()
}

/// Runs the script that the source gives, and answers the status.
fn end_of_script<S: Source, T: Sink>(alloc: Global, source: &mut S, sink: &mut T) -> Status
    ensures { EndsScript (S.state source.old) (S.state source.new)
        (T.state sink.old) (T.state sink.new) result }
{
    match read_all(alloc, source) {
        Input::Whole(bytes) => answer_bytes(alloc, &bytes, sink),
        Input::TooLong => write_text(sink, SCRIPT_REFUSED, Status::ScriptRefused),
        Input::Failed => Status::SourceFailed,
        Input::OutOfMemory => Status::OutOfMemory,
    }
}

/// Runs the script that the bytes spell, and answers the status.
fn answer_bytes<T: Sink>(alloc: Global, bytes: &[u8], sink: &mut T) -> Status
    ensures { EndsBytes bytes.now (T.state sink.old) (T.state sink.new) result }
{
    match report_bytes(alloc, bytes) {
        Ok(text) => write_text(sink, &text, Status::Reported),
        Err(ScriptError::Refused) => write_text(sink, SCRIPT_REFUSED, Status::ScriptRefused),
        Err(ScriptError::HookNotCalled) => write_text(sink, SCRIPT_REFUSED, Status::ScriptRefused),
        Err(ScriptError::OutOfMemory) => Status::OutOfMemory,
    }
}

/// The report of a run of the script that the bytes spell.
fn report_bytes(alloc: Global, bytes: &[u8]) -> Result<Vec<u8>, ScriptError>
    ensures { Answers (λ text. text.items) bytes.now result }
{
    let script = read_script(alloc, bytes)?;
    let requests = run_exchanges(alloc, script)?;
    let text = report_text(alloc, &requests)?;
    Ok(text)
}

/// Writes a text, and answers `done` where the sink took all of it.
fn write_text<T: Sink>(sink: &mut T, text: &[u8], done: Status) -> Status
    ensures { (output : Output) × WritesOut (T.state sink.old) (T.state sink.new) text.now output
        × (result ≡ status_after output done) }
{
    match write_all(sink, text) {
        Output::Done => done,
        Output::Failed => Status::SinkFailed,
        Output::OutOfMemory => Status::OutOfMemory,
    }
}
