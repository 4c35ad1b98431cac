//! What a script is read as where no report shows it: its turns, each branch of its schedule, which
//! links are used again, and how many peers, requests and attempts it may have.
use super::support::repeated;
use relay_json::{ScriptError, read_script};
use relay_links::{BRANCHES, Branch};
use std::alloc::{AllocError, Global};

/// Whether a text spells a script of so many turns and that schedule.
fn spells(alloc: Global, text: &str, turns: u64, schedule: &[Branch]) -> bool {
    match read_script(alloc, text.as_bytes()) {
        Ok(script) => script.turns == turns && script.schedule.as_slice() == schedule,
        Err(ScriptError::Refused | ScriptError::HookNotCalled | ScriptError::OutOfMemory) => false,
    }
}

const BARE: &str = "{\"client\":[],\"peers\":[{\"name\":\"a\"}]}";

const EVERY: &str = "{\"client\":[],\"peers\":[{\"name\":\"a\"}],\"schedule\":[\"UpWrite\",\
    \"DownWrite\",\"UpTake\",\"DownTake\",\"DownDrop\",\"DownEnd\",\"DownClosed\",\"UpRead\",\
    \"DownRead\",\"UpFinish\",\"DownFinish\",\"MessageUp\",\"MessageDown\"]}";

const AGAIN: &str = "{\"client\":[],\"peers\":[{\"name\":\"a\"}],\
    \"schedule\":[\"DownRead\",\"UpTake\",\"DownRead\"]}";

/// A script of all keys, one of which comes twice: the last counts.
const FULL: &str = "{\"schedule\":[\"UpEnd\"],\"turns\":7,\"client\":[],\"client_write\":[],\
    \"peers\":[{\"name\":\"a\"}],\"schedule\":[\"UpRead\"]}";

#[test]
fn reads_its_turns_and_each_branch_by_its_name(rt: HostRuntime) {
    let alloc = rt.alloc();
    assert!(rt; spells(alloc, BARE, 1_000_000, &[]));
    assert!(rt; spells(alloc, EVERY, 1_000_000, &BRANCHES));
    let again = [Branch::DownRead, Branch::UpTake, Branch::DownRead];
    assert!(rt; spells(alloc, AGAIN, 1_000_000, &again));
    assert!(rt; spells(alloc, FULL, 7, &[Branch::UpRead]));
}

/// Whether the link of a peer with these further keys is used again; none where it is refused.
fn again(alloc: Global, keys: &str) -> Result<Option<bool>, AllocError> {
    let text = format!(in alloc; "{{\"client\":[],\"peers\":[{{\"name\":\"a\"{keys}}}]}}")?;
    match read_script(alloc, text.as_bytes()) {
        Ok(script) => Ok(script.peers.first().map(|peer| peer.again)),
        Err(ScriptError::Refused | ScriptError::HookNotCalled) => Ok(None),
        Err(ScriptError::OutOfMemory) => Err(AllocError),
    }
}

/// Further keys of a peer, and what its `again` is read as.
const USED: [(&str, Option<bool>); 6] = [
    ("", Some(false)),
    (",\"again\":false", Some(false)),
    (",\"again\":true", Some(true)),
    (",\"again\":true,\"connect\":\"reused\"", Some(true)),
    (",\"again\":\"reused\"", None),
    (",\"again\":1", None),
];

#[test]
fn reads_which_links_are_used_again(rt: HostRuntime) -> Result<(), AllocError> {
    for (keys, wanted) in USED {
        assert!(rt; again(rt.alloc(), keys)? == wanted, "a peer{keys}");
    }
    Ok(())
}

/// How many peers, requests and attempts a script has of so many peers and these further keys; none
/// where it is refused.
fn counted(
    alloc: Global,
    peers: usize,
    keys: &str,
) -> Result<Option<(usize, u64, usize)>, AllocError> {
    let more = repeated(alloc, "{\"name\":\"a\"},", peers)?;
    let text = format!(in alloc; "{{\"client\":[],\"peers\":[{more}{{\"name\":\"a\"}}]{keys}}}")?;
    match read_script(alloc, text.as_bytes()) {
        Ok(script) => Ok(Some((script.peers.len(), script.requests, script.retries.most()))),
        Err(ScriptError::Refused | ScriptError::HookNotCalled) => Ok(None),
        Err(ScriptError::OutOfMemory) => Err(AllocError),
    }
}

/// How many peers there are beside one, further keys, and what they are read as.
const COUNTED: [(usize, &str, Option<(usize, u64, usize)>); 10] = [
    (0, "", Some((1, 1, 2))),
    (1_023, ",\"requests\":1", Some((1_024, 1, 2))),
    (1_024, "", None),
    (1, ",\"requests\":1024", Some((2, 1_024, 2))),
    (0, ",\"requests\":0", None),
    (0, ",\"requests\":1025", None),
    (0, ",\"retries\":1", Some((1, 1, 1))),
    (0, ",\"retries\":1024", Some((1, 1, 1_024))),
    (0, ",\"retries\":0", None),
    (0, ",\"retries\":1025", None),
];

#[test]
fn reads_up_to_1024_peers_requests_and_attempts(rt: HostRuntime) -> Result<(), AllocError> {
    for (peers, keys, wanted) in COUNTED {
        let is_so = counted(rt.alloc(), peers, keys)? == wanted;
        assert!(rt; is_so, "{peers} and one peers{keys}");
    }
    Ok(())
}
