//! The same request over a proxy that makes modules, and over one that makes none.
use super::counting::Counting;
use super::requests::{
    Client, Proxy, TURNS, answering, bare_over, client, entry, is_numbered, outside, proxy,
};
use super::upstreams::calls_of;
use relay_tasks::Hook;
use std::alloc::Global;
use std::test::Fail;

/// The calls of modules that a log tells of.
const FILTERS: [Hook; 6] = [
    Hook::ModuleRequestHeader,
    Hook::ModuleRequestBody,
    Hook::ModuleResponseHeader,
    Hook::ModuleResponseBody,
    Hook::ModuleResponseTrailer,
    Hook::ModuleResponseDone,
];

/// What came of a request: its client, with what that was written, and which filters of the module
/// were called, each once, in the order in which they were called first.
#[derive(Drop)]
struct Came {
    client: Client,
    filters: Vec<Hook>,
}

/// Whether the client was written the pieces of the answer as the peer sent them.
fn is_as_sent(client: &Client) -> bool {
    client.link().taken().ends_with(b"\r\n\r\naaa")
}

/// A proxy that makes no modules, whose peers answer two requests.
fn bare(alloc: Global) -> Result<Proxy, Fail> {
    let mut entries = Vec::new(alloc);
    entries.push(entry(answering(alloc)?, false))?;
    entries.push(entry(answering(alloc)?, false))?;
    bare_over(alloc, Counting::new(None), entries)
}

/// Processes one request of a client of its own.
fn came_of(alloc: Global, proxy: &mut Proxy) -> Result<Came, Fail> {
    let mut client = client(alloc)?;
    let processed = proxy.process_new_http(&mut client, &mut outside(), TURNS);
    let mut filters: Vec<Hook> = Vec::new(alloc);
    for hook in calls_of(alloc, &processed.history.log, &FILTERS)? {
        if !filters.contains(&hook) {
            filters.push(hook)?;
        }
    }
    Ok(Came { client, filters })
}

#[test]
fn modules_filter_where_they_are_made(rt: HostRuntime) -> Result<(), Fail> {
    let alloc = rt.alloc();
    let came = came_of(alloc, &mut proxy(alloc, None)?)?;
    assert!(rt; is_numbered(&came.client));
    assert_eq!(rt; came.filters.as_slice(), &FILTERS[..4]);
    Ok(())
}

#[test]
fn no_module_filters_where_none_is_made(rt: HostRuntime) -> Result<(), Fail> {
    let alloc = rt.alloc();
    let came = came_of(alloc, &mut bare(alloc)?)?;
    assert!(rt; is_as_sent(&came.client));
    assert!(rt; came.filters.is_empty());
    Ok(())
}

#[test]
fn modules_filter_from_the_call_on_that_says_so(rt: HostRuntime) -> Result<(), Fail> {
    let alloc = rt.alloc();
    let mut proxy = bare(alloc)?;
    let before = came_of(alloc, &mut proxy)?;
    proxy.handle_init_modules();
    let behind = came_of(alloc, &mut proxy)?;
    assert!(rt; is_as_sent(&before.client));
    assert!(rt; before.filters.is_empty());
    assert!(rt; is_numbered(&behind.client));
    assert_eq!(rt; behind.filters.as_slice(), &FILTERS[..4]);
    Ok(())
}
