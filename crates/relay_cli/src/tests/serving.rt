//! Serving over TCP on this host: a client and a peer on threads of their own, and the relay
//! between them.
use relay_command::serve;
use std::io::{Read, Write};
use std::net::{Ipv4Addr, Net, SocketAddr, TcpListener, TcpStream};
use std::test::Fail;
use std::thread;
use std::time::{Clock, Duration};

/// A request of the client, and what the peer is sent of it.
const REQUEST: &[u8; 36] = b"GET /a HTTP/1.1\r\nHost: h.example\r\n\r\n";

const SENT: &[u8; 36] = b"GET /a HTTP/1.1\r\nhost: h.example\r\n\r\n";

/// The peer's answer, and what the client is written of it.
const ANSWER: &[u8; 40] = b"HTTP/1.1 200 OK\r\nContent-Length: 2\r\n\r\nhi";

const WRITTEN: &[u8; 40] = b"HTTP/1.1 200 OK\r\ncontent-length: 2\r\n\r\nhi";

/// How often a connection is tried, ten milliseconds apart.
const TRIES: usize = 500;

/// Answers one request on a connection of its own; whether it came as it is sent.
fn answer_one(peer: &TcpListener) -> bool {
    let Ok((mut stream, _)) = peer.accept() else {
        return false;
    };
    let mut room = [0; 36];
    stream.read_exact(&mut room).is_ok() && room == *SENT && stream.write_all(ANSWER).is_ok()
}

/// A connection to the relay, once it listens.
fn connect<R: Net<Stream = TcpStream> + Clock>(rt: &R, port: u16) -> Option<TcpStream> {
    for _ in 0..TRIES {
        if let Ok(stream) = TcpStream::connect(rt, SocketAddr::from((Ipv4Addr::LOCALHOST, port))) {
            return Some(stream);
        }
        thread::sleep(rt, Duration::from_millis(10));
    }
    None
}

/// Sends a request, and waits for the response; whether that came as it is written.
fn ask_once(stream: &mut TcpStream) -> bool {
    let mut room = [0; 40];
    stream.write_all(REQUEST).is_ok() && stream.read_exact(&mut room).is_ok() && room == *WRITTEN
}

/// Asks twice on one connection, the second time after the first response.
fn ask_twice(mut stream: TcpStream) -> bool {
    ask_once(&mut stream) && ask_once(&mut stream)
}

/// A port that nobody listens at.
fn free_port(rt: &HostRuntime) -> Result<u16, Fail> {
    let listener = TcpListener::bind(rt, SocketAddr::from((Ipv4Addr::LOCALHOST, 0)))?;
    Ok(listener.local_addr()?.port())
}

#[test]
fn serves_two_requests_on_one_connection(rt: HostRuntime) -> Result<(), Fail> {
    let peer = TcpListener::bind(&rt, SocketAddr::from((Ipv4Addr::LOCALHOST, 0)))?;
    let peer_port = peer.local_addr()?.port();
    let port = free_port(&rt)?;
    let answering = thread::spawn(&rt, move || answer_one(&peer) && answer_one(&peer))?;
    let asking = thread::spawn(&rt, move || connect(&rt, port).is_some_and(ask_twice))?;
    let status = serve(&rt, rt.alloc(), port, peer_port, 2);
    let answered = answering.join(&rt);
    let asked = asking.join(&rt);
    assert!(rt; status == 0 && answered && asked);
    Ok(())
}

#[test]
fn answers_seven_at_a_port_that_is_taken(rt: HostRuntime) -> Result<(), Fail> {
    let other = TcpListener::bind(&rt, SocketAddr::from((Ipv4Addr::LOCALHOST, 0)))?;
    let port = other.local_addr()?.port();
    let status = serve(&rt, rt.alloc(), port, port, 1);
    assert!(rt; status == 7);
    Ok(())
}
