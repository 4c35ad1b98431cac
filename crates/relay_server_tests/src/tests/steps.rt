//! A request behind an application that counts, step by step: when its delays are handed over.
ghost use Rattle.std.specs.Prelude.{◌≤◌};
ghost use Rattle.relay_connector.specs.ScriptEntries.{links_out};
ghost use Rattle.relay_connector.specs.ScriptConnector.{any_start, any_state};
ghost use Rattle.relay_request.specs.Turn.{links_held};

use super::counting::Counting;
use super::requests::{Client, Proxy, TURNS, client, is_numbered, outside, proxy};
use relay_connector::ScriptConnector;
use relay_links::{CountDelay, RoundRobin, ShutdownAt};
use relay_proxy::{Outside, RequestMachine, RunStep};
use relay_tasks::Pause;
use std::alloc::Global;
use std::test::Fail;

/// The head that the client is written.
const HEAD: &str = "HTTP/1.1 200 OK\r\ncontent-length: 3\r\n\r\n";

/// The steps in which delays were handed over: how many there were, and in how many of them it was
/// one delay, of a piece that was still to be written, and the client was written nothing.
#[derive(Clone, Copy, Debug, PartialEq, Eq)]
struct Delayed {
    steps: usize,
    early: usize,
}

/// A request under way, and the steps so far in which delays were handed over.
struct Request {
    proxy: Proxy,
    client: Client,
    outside: Outside<RoundRobin, ShutdownAt, CountDelay>,
    machine: RequestMachine<Counting, ScriptConnector>,
    delayed: Delayed,
    ghost out: { links_held any_state any_start machine.machine.phase
        ≤ links_out proxy.connector },
}

/// Where the delays and what the client was written stand.
#[derive(Clone, Copy)]
struct Mark {
    delays: u64,
    written: usize,
}

impl Mark {
    /// Where they stand.
    fn of(client: &Client, delay: &CountDelay) -> Mark {
        Mark {
            delays: delay.calls(),
            written: client.link().taken().len(),
        }
    }
}

impl Delayed {
    /// Counts a step from one mark to another, if a delay was handed over in it.
    fn count(&mut self, before: Mark, after: Mark) {
        if after.delays == before.delays {
            return;
        }
        self.steps = self.steps.saturating_add(1);
        let is_one = after.delays == before.delays.saturating_add(1);
        let is_owed = after.written < HEAD.len().saturating_add(self.steps);
        if is_one && after.written == before.written && is_owed {
            self.early = self.early.saturating_add(1);
        }
    }
}

impl Request {
    /// Begins the request.
    fn begin(proxy: Proxy, mut client: Client) -> Request {
        let machine = proxy.begin(&mut client, None);
        Request {
            proxy,
            client,
            outside: outside(),
            machine,
            delayed: Delayed { steps: 0, early: 0 },
        }
    }

    /// Takes a step, and answers whether another may follow.
    fn step(&mut self) -> bool {
        let before = Mark::of(&self.client, &self.outside.delay);
        let step = self
            .proxy
            .step(&mut self.machine, &mut self.client, &mut self.outside);
        let after = Mark::of(&self.client, &self.outside.delay);
        self.delayed.count(before, after);
        match step {
            RunStep::Moved | RunStep::Waited(Pause::NotReady) => true,
            RunStep::Waited(Pause::Silent) | RunStep::Ended => false,
        }
    }

    /// Ends the request: the steps with delays, where its client was written the digits.
    fn end(self) -> Option<Delayed> {
        let Request {
            mut proxy,
            mut client,
            outside: _,
            machine,
            delayed,
        } = self;
        let _ = proxy.end(machine, &mut client);
        if is_numbered(&client) {
            Some(delayed)
        } else {
            None
        }
    }
}

/// The steps with delays of the request where the application asks for that delay.
fn stepped(alloc: Global, delay: Option<u64>) -> Result<Option<Delayed>, Fail> {
    let mut request = Request::begin(proxy(alloc, delay)?, client(alloc)?);
    for _ in 0..TURNS {
        if !request.step() {
            break;
        }
    }
    Ok(request.end())
}

#[test]
fn hands_a_delay_over_before_its_piece_is_written(rt: HostRuntime) -> Result<(), Fail> {
    for (delay, steps) in [(Some(5), 3), (None, 0)] {
        let delayed = stepped(rt.alloc(), delay)?;
        assert_eq!(rt;
            delayed,
            Some(Delayed {
                steps,
                early: steps
            })
        );
    }
    Ok(())
}
