//! What the log of a small request costs: the calls of a GET with a small response by the
//! application that decides nothing, entered in the log one by one, or with no log.
//!
//! The first word says which: `logged` or `plain`. The requests are as many as the words behind it.
//! Counted by callgrind, the difference between runs with two such words and with one is what one
//! request costs, and of that the difference between both ways is what its entries cost.
#![tactic(auto)]

mod heads;
mod logged;
mod plain;

use crate::logged::log_requests;
use crate::plain::call_requests;
use relay_tasks::Result;
use std::alloc::Global;
use std::process::ExitCode;
use std::rt::Env;
use std::{env, io};

/// How the hooks are called: each through the wrapper that enters it in the log, or directly.
#[derive(Clone, Copy)]
enum Way {
    Logged,
    Plain,
}

fn main(rt: HostRuntime) -> ExitCode {
    let (way, requests) = match words(&rt) {
        Ok(Some(words)) => words,
        Ok(None) | Err(_) => return ExitCode::from(2),
    };
    match make(rt.alloc(), way, requests) {
        Ok(true) => ExitCode::from(0),
        Ok(false) | Err(_) => ExitCode::from(1),
    }
}

/// Makes the calls of so many requests, and answers whether the last one's log has all its entries.
fn make(alloc: Global, way: Way, requests: usize) -> Result<bool> {
    match way {
        Way::Logged => Ok(log_requests(alloc, requests)? == 16),
        Way::Plain => {
            call_requests(alloc, requests)?;
            Ok(true)
        }
    }
}

/// The way that the first word names, and how many words stand behind it; none where it names none.
fn words<R: Env + AllocGlobal>(rt: &R) -> io::Result<Option<(Way, usize)>> {
    let mut words = env::args(rt)?.skip(1);
    let Some(first) = words.next() else {
        return Ok(None);
    };
    let way = match first.as_str() {
        "logged" => Way::Logged,
        "plain" => Way::Plain,
        _ => return Ok(None),
    };
    Ok(Some((way, words.count())))
}
