//! Errors of the relay: what went wrong, on whose side, and whether another attempt may help.
ghost use Rattle.std.specs.Prelude.{◌≡◌};
ghost use Rattle.relay_tasks.specs.Error.{new_error, explained, caused, error_of_fault, may_retry, decided_by};

use crate::context::Context;
use crate::fault::{Fault, FaultKind};
use http_header::HeaderMapError;
use std::alloc::AllocError;

/// What went wrong. The finished relay itself never makes `InternalError`, `FileReadError`,
/// `HTTPStatus` or `Custom`; only hooks do.
#[derive(Clone, Copy, Debug, PartialEq, Eq)]
pub enum ErrorType {
    InvalidHTTPHeader,
    ReadError,
    ReadTimedout,
    WriteError,
    WriteTimedout,
    ConnectionClosed,
    ConnectError,
    PrematureBodyEnd,
    H2Error,
    H2Downgrade,
    InvalidH2,
    InternalError,
    FileReadError,
    HTTPStatus(u16),
    Custom(u16),
}

/// The side on which it went wrong.
#[derive(Clone, Copy, Debug, PartialEq, Eq)]
pub enum ErrorSource {
    Upstream,
    Downstream,
    Internal,
    Unset,
}

/// Whether another attempt may help: decided, or only where the connection had been used before.
#[derive(Clone, Copy, Debug, PartialEq, Eq)]
pub enum RetryType {
    Decided(bool),
    ReusedOnly,
}

impl RetryType {
    /// Decides an open mark by whether the connection had been used before. A decided mark stays.
    pub fn decide_reuse(&mut self, reused: bool)
        ensures { self.new ≡ decided_by self.old reused }
    {
        *self = match *self {
            RetryType::Decided(on) => RetryType::Decided(on),
            RetryType::ReusedOnly => RetryType::Decided(reused),
        };
    }
}

/// An error as plain data: what it is, what it came from, whose it is, and its mark for a retry.
#[derive(Clone, Copy, Debug, PartialEq, Eq)]
pub struct Error {
    pub etype: ErrorType,
    pub root: ErrorType,
    pub esource: ErrorSource,
    pub retry: RetryType,
    pub context: Context,
}

impl Error {
    /// An error of no side, with no context, which is not to be retried.
    pub fn new(etype: ErrorType) -> Error
        ensures { result ≡ new_error etype ErrorSource.Unset }
    {
        Error::of_side(etype, ErrorSource::Unset)
    }

    /// As `new`, on the upstream's side.
    pub fn new_up(etype: ErrorType) -> Error
        ensures { result ≡ new_error etype ErrorSource.Upstream }
    {
        Error::of_side(etype, ErrorSource::Upstream)
    }

    /// As `new`, on the client's side.
    pub fn new_down(etype: ErrorType) -> Error
        ensures { result ≡ new_error etype ErrorSource.Downstream }
    {
        Error::of_side(etype, ErrorSource::Downstream)
    }

    /// As `new`, on the relay's own side.
    pub fn new_in(etype: ErrorType) -> Error
        ensures { result ≡ new_error etype ErrorSource.Internal }
    {
        Error::of_side(etype, ErrorSource::Internal)
    }

    fn of_side(etype: ErrorType, esource: ErrorSource) -> Error
        ensures { result ≡ new_error etype esource }
    {
        Error {
            etype,
            root: etype,
            esource,
            retry: RetryType::Decided(false),
            context: Context::None,
        }
    }

    /// As `new`, and says what it is about.
    pub fn explain(etype: ErrorType, context: Context) -> Error
        ensures { result ≡ explained etype context }
    {
        Error {
            etype,
            root: etype,
            esource: ErrorSource::Unset,
            retry: RetryType::Decided(false),
            context,
        }
    }

    /// An error of no side that keeps the root and the mark of its cause.
    pub fn because(etype: ErrorType, context: Context, cause: Error) -> Error
        ensures { result ≡ caused etype context cause }
    {
        Error {
            etype,
            root: cause.root,
            esource: ErrorSource::Unset,
            retry: cause.retry,
            context,
        }
    }

    /// The error that tells of a fault: its kind is the type and the root, its mark the mark. The
    /// caller sets the side.
    pub fn of_fault(fault: Fault) -> Error
        ensures { result ≡ error_of_fault fault }
    {
        let etype = match fault.kind {
            FaultKind::Read => ErrorType::ReadError,
            FaultKind::ReadTimedout => ErrorType::ReadTimedout,
            FaultKind::Write => ErrorType::WriteError,
            FaultKind::WriteTimedout => ErrorType::WriteTimedout,
            FaultKind::Connect => ErrorType::ConnectError,
            FaultKind::H2Error => ErrorType::H2Error,
            FaultKind::H2Downgrade => ErrorType::H2Downgrade,
            FaultKind::InvalidH2 => ErrorType::InvalidH2,
        };
        Error {
            etype,
            root: etype,
            esource: ErrorSource::Unset,
            retry: fault.retry,
            context: Context::LinkFault,
        }
    }

    /// What went wrong.
    pub fn etype(&self) -> ErrorType
        ensures { result ≡ self.now.etype }
    {
        self.etype
    }

    /// The side on which it went wrong.
    pub fn esource(&self) -> ErrorSource
        ensures { result ≡ self.now.esource }
    {
        self.esource
    }

    /// The type of the first error in the chain of causes.
    pub fn root_etype(&self) -> ErrorType
        ensures { result ≡ self.now.root }
    {
        self.root
    }

    /// The same error, on the upstream's side.
    pub fn into_up(self) -> Error
        ensures { result ≡ record self { esource = ErrorSource.Upstream } }
    {
        Error {
            esource: ErrorSource::Upstream,
            ..self
        }
    }

    /// The same error, on the client's side.
    pub fn into_down(self) -> Error
        ensures { result ≡ record self { esource = ErrorSource.Downstream } }
    {
        Error {
            esource: ErrorSource::Downstream,
            ..self
        }
    }

    /// The same error, on the relay's own side.
    pub fn into_in(self) -> Error
        ensures { result ≡ record self { esource = ErrorSource.Internal } }
    {
        Error {
            esource: ErrorSource::Internal,
            ..self
        }
    }

    /// Puts the error on the upstream's side.
    pub fn as_up(&mut self)
        ensures { self.new ≡ record self.old { esource = ErrorSource.Upstream } }
    {
        self.esource = ErrorSource::Upstream;
    }

    /// Puts the error on the client's side.
    pub fn as_down(&mut self)
        ensures { self.new ≡ record self.old { esource = ErrorSource.Downstream } }
    {
        self.esource = ErrorSource::Downstream;
    }

    /// Puts the error on the relay's own side.
    pub fn as_in(&mut self)
        ensures { self.new ≡ record self.old { esource = ErrorSource.Internal } }
    {
        self.esource = ErrorSource::Internal;
    }

    /// Decides the mark for a retry.
    pub fn set_retry(&mut self, on: bool)
        ensures { self.new ≡ record self.old { retry = RetryType.Decided on } }
    {
        self.retry = RetryType::Decided(on);
    }

    /// Whether another attempt may help, as far as it is decided.
    pub fn retry(&self) -> bool
        ensures { result ≡ may_retry self.now.retry }
    {
        match self.retry {
            RetryType::Decided(on) => on,
            RetryType::ReusedOnly => false,
        }
    }
}

/// Why a call did not do its work: out of memory, which is merged with nothing, or an error.
#[derive(Clone, Copy, Debug, PartialEq, Eq)]
pub enum Fail {
    OutOfMemory,
    Error(Error),
}

/// The answer of a call that may want memory or be refused.
pub type Result<T> = std::result::Result<T, Fail>;

impl From<AllocError> for Fail {
    ghost use Rattle.std.specs.Prelude.{◌≡◌};
    ghost use Rattle.relay_tasks.specs.declared.error.Fail.TheVariants.{OutOfMemory};

    ghost from_gives = { λ _ fail. fail ≡ OutOfMemory };

    fn from(_e: AllocError) -> Fail {
        Fail::OutOfMemory
    }
}

impl From<Error> for Fail {
    ghost use Rattle.std.specs.Prelude.{◌≡◌};
    ghost use Rattle.relay_tasks.specs.declared.error.Fail.TheVariants as fail;

    ghost from_gives = { λ error given. given ≡ fail.Error error };

    fn from(error: Error) -> Fail {
        Fail::Error(error)
    }
}

/// A map that is full is refused as a head that is too long.
impl From<HeaderMapError> for Fail {
    ghost use Rattle.std.specs.Prelude.{◌≡◌};
    ghost use Rattle.relay_tasks.specs.Fields.{map_failure};

    ghost from_gives = { λ e fail. fail ≡ map_failure e };

    fn from(e: HeaderMapError) -> Fail {
        match e {
            HeaderMapError::MaxSizeReached => Fail::Error(Error::explain(
                ErrorType::InvalidHTTPHeader,
                Context::HeadTooLong,
            )),
            HeaderMapError::OutOfMemory => Fail::OutOfMemory,
        }
    }
}
