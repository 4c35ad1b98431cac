//! `relay`: runs a scripted exchange through the proxy and reports what came of it, or serves a
//! port for a peer at another.
#![tactic(auto)]

#[cfg(test)]
mod tests;

use relay_command::{Command, Status, parse_words, run_command, serve};
use relay_links::{StdSink, StdSource};
use std::process::ExitCode;
use std::rt::Env;
use std::{env, io};

fn main(rt: HostRuntime) -> ExitCode {
    let mut source = StdSource::new(rt.reader());
    let mut sink = StdSink::new(io::writer(&rt));
    let status = match arguments(&rt) {
        Ok(words) => match parse_words(&words) {
            Some(Command::Serve(port, peer)) => serve(&rt, rt.alloc(), port, peer, u64::MAX),
            Some(Command::Run | Command::Gen(_) | Command::Pair) | None => {
                run_command(rt.alloc(), &words, &mut source, &mut sink)
            }
        },
        Err(error) if error.kind() == io::ErrorKind::OutOfMemory => Status::OutOfMemory.code(),
        // Words that are no text ask for nothing.
        Err(_) => run_command(rt.alloc(), &[], &mut source, &mut sink),
    };
    ExitCode::from(status)
}

/// The words behind the program's name.
fn arguments<R: Env + AllocGlobal>(rt: &R) -> io::Result<Vec<Vec<u8>>> {
    let mut words = Vec::new(rt.alloc());
    for word in env::args(rt)?.skip(1) {
        words.push(Vec::from_slice(rt.alloc(), word.as_bytes())?)?;
    }
    Ok(words)
}
