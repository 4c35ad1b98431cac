//! Schedules: whatever they name, the same bytes pass.
use super::super::scripts::Gives;
use super::support::{Case, Ending, exchange_by};
use relay_links::{Branch, ListSchedule};
use relay_tasks::Result;
use std::alloc::{AllocError, Global};

/// That branch, 200 times.
fn only(alloc: Global, branch: Branch) -> Result<ListSchedule> {
    let mut branches = Vec::new(alloc);
    for _ in 0..200 {
        branches.push(branch).map_err(AllocError::from)?;
    }
    Ok(ListSchedule::new(branches))
}

/// What comes of an upload and a download of twelve chunks each, by a schedule that names that
/// branch alone.
fn both(alloc: Global, branch: Branch) -> Result<Ending> {
    let chunks = Gives::Times(12, "3\r\nabc\r\n");
    let last = Gives::Text("0\r\n\r\n");
    let request = "POST /c HTTP/1.1\r\nHost: h.example\r\nTransfer-Encoding: chunked\r\n\r\n";
    let answer = "HTTP/1.1 200 OK\r\nTransfer-Encoding: chunked\r\n\r\n";
    let case = Case {
        from_client: &[Gives::Text(request), chunks, last],
        from_peer: &[Gives::Text(answer), chunks, last],
        written: "HTTP/1.1 200 OK\r\ntransfer-encoding: chunked\r\n\r\n\
            3\r\nabc\r\n3\r\nabc\r\n3\r\nabc\r\n3\r\nabc\r\n3\r\nabc\r\n3\r\nabc\r\n\
            3\r\nabc\r\n3\r\nabc\r\n3\r\nabc\r\n3\r\nabc\r\n3\r\nabc\r\n3\r\nabc\r\n0\r\n\r\n",
        sent: "POST /c HTTP/1.1\r\nhost: h.example\r\ntransfer-encoding: chunked\r\n\r\n\
            3\r\nabc\r\n3\r\nabc\r\n3\r\nabc\r\n3\r\nabc\r\n3\r\nabc\r\n3\r\nabc\r\n\
            3\r\nabc\r\n3\r\nabc\r\n3\r\nabc\r\n3\r\nabc\r\n3\r\nabc\r\n3\r\nabc\r\n0\r\n\r\n",
    };
    exchange_by(alloc, case, 0, only(alloc, branch)?)
}

/// Whether the upload and the download are relayed whole where that branch is named.
fn relays(alloc: Global, branch: Branch) -> bool {
    both(alloc, branch) == Ok(Ending::Relayed)
}

#[test]
fn an_upload_beside_a_download_is_relayed_whatever_branch_is_named(rt: HostRuntime) {
    let branches = &[
        Branch::UpWrite,
        Branch::DownWrite,
        Branch::UpTake,
        Branch::DownTake,
        Branch::DownDrop,
        Branch::DownEnd,
        Branch::DownClosed,
        Branch::UpRead,
        Branch::DownRead,
        Branch::UpFinish,
        Branch::DownFinish,
    ];
    for branch in branches {
        assert!(rt; relays(rt.alloc(), *branch));
    }
}
