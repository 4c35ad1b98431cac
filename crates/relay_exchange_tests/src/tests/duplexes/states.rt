use relay_core::*;
use relay_tasks::HttpTask;

/// Whether the pipe takes four tasks.
fn takes_four(pipe: &mut Pipe) -> bool {
    for _ in 0..4 {
        if pipe.put(HttpTask::Done).is_err() {
            return false;
        }
    }
    true
}

/// Whether the pipe takes that task, the fifth, once one was taken out.
fn takes_behind(pipe: &mut Pipe, fifth: HttpTask) -> bool {
    let is_fifth = fifth.type_str() == "Trailer";
    let taken = pipe.take().is_some();
    let put = pipe.put(fifth).is_ok();
    is_fifth && taken && put && pipe.len() == 4
}

/// Whether the pipe hands a fifth task back, and takes it later.
fn hands_back(pipe: &mut Pipe) -> bool {
    if !takes_four(pipe) {
        return false;
    }
    match pipe.put(HttpTask::Trailer(None)) {
        Ok(()) => false,
        Err(fifth) => takes_behind(pipe, fifth),
    }
}

/// The same of a new pipe.
fn new_hands_back() -> bool {
    let mut pipe = Pipe::new();
    hands_back(&mut pipe)
}

#[test]
fn a_pipe_hands_the_fifth_task_back(rt: HostRuntime) {
    assert!(rt; new_hands_back());
}

/// Whether a request ends, and opens again.
fn ends_and_opens() -> bool {
    let mut request = DownstreamStateMachine::new(false);
    request.maybe_finished(false);
    let is_open = request.is_reading();
    request.maybe_finished(true);
    let is_ended = request.is_done();
    request.reset();
    is_open && is_ended && request.is_reading()
}

/// Whether the request of a client that failed stays so.
fn stays_failed() -> bool {
    let mut request = DownstreamStateMachine::new(false);
    request.to_errored();
    request.reset();
    request.maybe_finished(true);
    request.is_errored() && !request.can_poll()
}

#[test]
fn a_request_ends_and_opens_again_unless_the_client_failed(rt: HostRuntime) {
    assert!(rt; ends_and_opens());
    assert!(rt; stays_failed());
}

/// Whether a response with a cached one is done only behind both.
fn waits_for_both() -> bool {
    let mut response = ResponseStateMachine::new();
    response.enable_cached_response();
    response.maybe_set_upstream_done(true);
    let is_open = response.upstream_done() && !response.cached_done() && !response.is_done();
    response.maybe_set_cache_done(true);
    response.maybe_set_cache_done(false);
    is_open && response.is_done()
}

#[test]
fn a_response_waits_for_upstream_and_cache(rt: HostRuntime) {
    assert!(rt; waits_for_both());
}
