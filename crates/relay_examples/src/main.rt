//! Uses of the library, by the words: `memory`, `context`, `gateway`, `failover`, `modify_response`
//! and `use_module` relay requests over links in memory by an application each, and
//! `serve PORT PEER` serves a port for a peer.
#![tactic(auto)]

mod context;
mod failover;
mod gateway;
mod memory;
mod modify_response;
mod serving;
mod use_module;

use crate::context::Versions;
use crate::failover::Failover;
use crate::gateway::Gateway;
use crate::memory::relay_each;
use crate::modify_response::UpperCase;
use crate::serving::serve_port;
use crate::use_module::Guarded;
use bytes::Bytes;
use relay_hooks::App;
use relay_proxy::{Defaults, ServerConf};
use relay_tasks::Peer;
use std::alloc::Global;
use std::io::ErrorKind;
use std::net::Net;
use std::process::ExitCode;
use std::rt::Env;
use std::sync::Wait;
use std::{env, io};

/// How the proxy of each use is set up: two attempts for a request at most.
const CONF: ServerConf = ServerConf { max_retries: 2 };

/// The application that decides nothing: what each hook does by default, and one peer.
fn application() -> Defaults {
    Defaults::new(any_peer())
}

/// The one peer, for a connector that knows where to go.
fn any_peer() -> Peer {
    Peer {
        address: Bytes::new(),
        tls: false,
        allows_h1: true,
    }
}

fn main(rt: HostRuntime) -> ExitCode {
    match run(&rt) {
        Ok(status) => ExitCode::from(status),
        Err(error) => {
            let _ = eprintln!(rt; "relay_examples: {}", error.kind());
            ExitCode::FAILURE
        }
    }
}

/// Runs the use that the words ask for, and answers the status of the program.
fn run<R: Env + Print + Net + Wait + AllocGlobal + Clone + Drop>(rt: &R) -> io::Result<u8> {
    let alloc = rt.alloc();
    let mut words = Vec::new(alloc);
    for word in env::args(rt)?.skip(1) {
        words.push(word)?;
    }
    match words.as_slice() {
        [word, port, peer] if word.as_str() == "serve" => match (port.parse(), peer.parse()) {
            (Ok(port), Ok(peer)) => serve_port(rt, alloc, port, peer),
            (Err(_), _) | (_, Err(_)) => Err(io::Error::from(ErrorKind::InvalidInput)),
        },
        [] => Err(io::Error::from(ErrorKind::InvalidInput)),
        uses => {
            for word in uses {
                show(rt, alloc, word.as_str())?;
            }
            Ok(0)
        }
    }
}

/// Relays the requests of a use in memory by its application.
fn show<R: Print>(rt: &R, alloc: Global, word: &str) -> io::Result<()> {
    match word {
        "memory" => relay_each(rt, alloc, application(), &memory::SCENE),
        "context" => relay_each(rt, alloc, App::new(Versions), &context::SCENE),
        "gateway" => relay_each(rt, alloc, App::new(Gateway), &gateway::SCENE),
        "failover" => relay_each(rt, alloc, App::new(Failover), &failover::SCENE),
        "modify_response" => {
            let upper_case = UpperCase::new(any_peer());
            relay_each(rt, alloc, upper_case, &modify_response::SCENE)
        }
        "use_module" => relay_each(rt, alloc, Guarded::new(any_peer()), &use_module::SCENE),
        _ => Err(io::Error::from(ErrorKind::InvalidInput)),
    }
}
