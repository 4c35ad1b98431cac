//! A port of this host that is served for a peer at another one.

use crate::{CONF, application};
use relay_links::MemoryPurger;
use relay_proxy::HttpProxy;
use relay_server::serve_with;
use relay_tasks::Purged;
use relay_tcp::{TcpConnector, TcpPoller};
use std::alloc::{AllocError, Global};
use std::io;
use std::net::{Ipv4Addr, Net, SocketAddr};
use std::sync::Wait;

/// Serves 127.0.0.1 at `port` for the peer 127.0.0.1 at `peer`, until the program is killed. It
/// ends only where the port is not to be had, or when out of memory.
pub fn serve_port<R: Net + Wait + Clone + Drop>(
    rt: &R,
    alloc: Global,
    port: u16,
    peer: u16,
) -> io::Result<u8> {
    let mut poller = TcpPoller::new(rt, alloc)?;
    let address = SocketAddr::from((Ipv4Addr::LOCALHOST, peer));
    let connector = TcpConnector::new(rt, address, poller.readiness()?)
        .ok()
        .ok_or(AllocError)?;
    let purger = MemoryPurger::new(alloc, Purged::NotFound);
    let mut proxy = HttpProxy::new(alloc, application(), CONF, connector, purger);
    let end = serve_with(rt, alloc, &mut proxy, &mut poller, port, u64::MAX);
    Ok(end.status)
}
