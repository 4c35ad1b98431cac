//! Serving: a port of this host, for a peer at another one.
ghost use Rattle.std.specs.Prelude.{◌≡◌, ◌⊎◌};

use crate::announcer::Announcer;
use bytes::Bytes;
use relay_links::MemoryPurger;
use relay_proxy::{Defaults, HttpProxy, ServerConf};
use relay_server::serve_with;
use relay_tasks::{Peer, Purged};
use relay_tcp::{TcpConnector, TcpPoller};
use std::alloc::Global;
use std::io;
use std::io::ErrorKind;
use std::net::{Ipv4Addr, Net, SocketAddr};
use std::sync::Wait;

/// How the proxy of a server is set up: it makes 4 attempts of a request at most, since each kept
/// connection may be closed by its peer at any time.
const CONF: ServerConf = ServerConf { max_retries: 4 };

/// Why serving stopped before so many requests had ended.
#[derive(Clone, Copy)]
enum Stop {
    OutOfMemory,
    /// The port is not to be had, or what happens there can not be waited for.
    Failed(ErrorKind),
}

impl From<io::Error> for Stop {
    fn from(error: io::Error) -> Stop {
        match error.kind() {
            ErrorKind::OutOfMemory => Stop::OutOfMemory,
            kind => Stop::Failed(kind),
        }
    }
}

/// Serves 127.0.0.1 at `port`, with the peer 127.0.0.1 at `peer`, until so many requests have
/// ended, and answers the number of the status. It may wait for ever. Standard error is told where
/// it serves, and why it does not.
///
/// 0: so many requests have ended. 5: out of memory. 7: the port is not to be had, or what happens
/// there can not be waited for.
pub fn serve<R: Net + Wait + Eprint + Clone + Drop>(
    rt: &R,
    alloc: Global,
    port: u16,
    peer: u16,
    requests: u64,
) -> u8
    ensures { (result ≡ 0) ⊎ ((result ≡ 5) ⊎ (result ≡ 7)) }
{
    match serve_peer(rt, alloc, port, peer, requests) {
        Ok(()) => 0,
        Err(Stop::OutOfMemory) => {
            let _ = eprintln!(rt; "can not serve 127.0.0.1:{port}: out of memory");
            5
        }
        Err(Stop::Failed(kind)) => {
            let _ = eprintln!(rt; "can not serve 127.0.0.1:{port}: {kind}");
            7
        }
    }
}

/// Serves over a poller and a connector that waits in it, until so many requests have ended.
fn serve_peer<R: Net + Wait + Eprint + Clone + Drop>(
    rt: &R,
    alloc: Global,
    port: u16,
    peer: u16,
    requests: u64,
) -> Result<(), Stop> {
    let poller = TcpPoller::new(rt, alloc)?;
    let Ok(readiness) = poller.readiness() else {
        return Err(Stop::OutOfMemory);
    };
    let address = SocketAddr::from((Ipv4Addr::LOCALHOST, peer));
    let Ok(connector) = TcpConnector::new(rt, address, readiness) else {
        return Err(Stop::OutOfMemory);
    };
    let purger = MemoryPurger::new(alloc, Purged::NotFound);
    let application = Defaults::new(Peer {
        address: Bytes::new(),
        tls: false,
        allows_h1: true,
    });
    // The application has no modules, so none are made: a request has a turn and some calls less.
    let mut proxy = HttpProxy::new(alloc, application, CONF, connector, purger);
    let mut announcer = Announcer { rt, poller, peer };
    match serve_with(rt, alloc, &mut proxy, &mut announcer, port, requests).status {
        0 => Ok(()),
        5 => Err(Stop::OutOfMemory),
        _ => Err(Stop::Failed(announcer.poller.failure().unwrap_or(ErrorKind::Other))),
    }
}
