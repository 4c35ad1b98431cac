//! A poller over TCP: it listens on this host alone, and sleeps in the kernel.
ghost use Rattle.std.specs.Prelude.{◌≡◌, ◌≤◌, None};
ghost use Rattle.relay_links.specs.Count.{Rose};

use crate::lingering::Lingering;
use crate::readiness::{Origin, Readiness, watch};
use crate::tcp_link::TcpLink;
use mio::net::TcpListener;
use mio::{Events, Interest, Poll, Token};
use relay_links::{Listening, Polled, Poller};
use std::alloc::{AllocError, Global};
use std::io;
use std::io::ErrorKind;
use std::net::{Ipv4Addr, Net, Shutdown, SocketAddr};
use std::sync::Arc;
use std::time::Duration;

/// The listener among what is waited for. Links have other tokens.
const LISTENER: Token = Token(0);

/// How many events one wait takes in. Those beyond it are told by the next one.
const EVENTS: usize = 128;

/// Listens at a port of 127.0.0.1. What is accepted does not block, sends small writes at once, and
/// is waited for until it is closed. A connection that is closed here lingers until its client has
/// ended it too.
#[derive(Drop)]
pub struct TcpPoller<R> {
    rt: R,
    poll: Poll,
    events: Events<Global>,
    // What the waits have told of each connection.
    readiness: Arc<Readiness>,
    listener: Option<TcpListener>,
    // Whether a client may wait: since the listener was told ready, no accept found nobody.
    crowded: bool,
    lingering: Lingering,
    faults: u64,
    // Why the last `listen` or `wait` failed that did.
    failure: Option<ErrorKind>,
}

impl<R: Net + Clone + Drop> TcpPoller<R> {
    /// A poller that listens to nothing yet. It fails where the system has no poll to give, and, as
    /// `OutOfMemory`, where there is no memory.
    pub fn new(rt: &R, alloc: Global) -> io::Result<TcpPoller<R>> {
        let poll = Poll::new(rt)?;
        let readiness = Readiness::new(alloc, poll.registry().try_clone()?)?;
        Ok(TcpPoller {
            rt: rt.clone()?,
            poll,
            events: Events::with_capacity(alloc, EVENTS)?,
            readiness,
            listener: None,
            crowded: false,
            lingering: Lingering::new(alloc)?,
            faults: 0,
            failure: None,
        })
    }

    /// Why a `listen` or a `wait` failed, the last one where several did; `None` where none did.
    pub fn failure(&self) -> Option<ErrorKind> {
        self.failure
    }

    /// What the waits tell of each connection, so that others can be waited for.
    pub fn readiness(&self) -> Result<Arc<Readiness>, AllocError> {
        Arc::try_clone(&self.readiness)
    }

    /// Listens at the port, and waits for the clients that come.
    fn open(&mut self, port: u16) -> io::Result<()>
        ensures { self.new.faults ≡ self.old.faults }
    {
        let address = SocketAddr::from((Ipv4Addr::LOCALHOST, port));
        let mut listener = TcpListener::bind(&self.rt, address)?;
        self.poll
            .registry()
            .register(&mut listener, LISTENER, Interest::READABLE)?;
        self.listener = Some(listener);
        self.crowded = true;
        Ok(())
    }
}

impl<R> TcpPoller<R> {
    /// The next client, and an error where nobody waits.
    fn next_client(&self) -> io::Result<TcpLink> {
        let Some(listener) = &self.listener else {
            return Err(io::Error::from(ErrorKind::WouldBlock));
        };
        let (mut stream, _) = listener.accept()?;
        stream.set_nodelay(true)?;
        let seat = watch(&self.readiness, &mut stream, Origin::Accepted)?;
        Ok(TcpLink::watched(stream, seat, false))
    }

    /// Notes all that the last wait gave, before another call is made; whether a client came.
    fn tell(&self) -> bool {
        let mut came = false;
        for event in self.events.iter() {
            if event.token() == LISTENER {
                came = true;
            } else {
                self.readiness.tell(event);
            }
        }
        came
    }
}

impl<R: Net + Clone + Drop> Poller for TcpPoller<R> {
    type Stream = TcpLink;

    ghost fault_count = { λ poller. poller.faults };

    ghost ports = { λ _. None };

    fn listen(&mut self, port: u16) -> Listening {
        let faults = self.faults;
        match self.open(port) {
            Ok(()) => Listening::Ready,
            Err(error) => {
                self.failure = Some(error.kind());
                self.faults = faults.saturating_add(1);
                Listening::Failed
            }
        }
    }

    fn accept(&mut self) -> Option<TcpLink> {
        if !self.crowded {
            return None;
        }
        let faults = self.faults;
        match self.next_client() {
            Ok(link) => Some(link),
            Err(error) if error.kind() == ErrorKind::WouldBlock => {
                self.crowded = false;
                None
            }
            Err(_) => {
                self.faults = faults.saturating_add(1);
                None
            }
        }
    }

    /// The client is told the end, and has some time to read what it was written.
    fn close(&mut self, mut stream: TcpLink) {
        if stream.stream().shutdown(Shutdown::Write).is_ok() {
            self.lingering.keep(stream);
        }
    }

    fn wait(&mut self, millis: u32) -> Polled {
        let faults = self.faults;
        let longest = Duration::from_millis(u64::from(millis));
        match self.poll.poll(&mut self.events, Some(longest)) {
            Ok(()) => {
                if self.tell() {
                    self.crowded = true;
                }
                self.lingering.drain();
                Polled::Ready
            }
            Err(error) => {
                self.failure = Some(error.kind());
                self.faults = faults.saturating_add(1);
                Polled::Failed
            }
        }
    }

    fn faults(&self) -> u64 {
        self.faults
    }
}
