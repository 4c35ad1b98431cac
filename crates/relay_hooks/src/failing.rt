//! What hooks are told of an error, and what they answer to it.

/// Why a warning is about to be written: another attempt follows at the upstream, or a cache could
/// not be filled. The second is never passed, since nothing is cached.
#[derive(Clone, Copy, PartialEq, Eq)]
pub enum ProxyWarnLogContext {
    UpstreamRetry,
    DownstreamCache,
}

/// What `fail_to_proxy` answers: the status with which the client was answered, or 0 for none, and
/// whether the client's connection may serve another request.
#[derive(Clone, Copy, Debug, PartialEq, Eq)]
pub struct FailToProxy {
    pub error_code: u16,
    pub can_reuse_downstream: bool,
}
