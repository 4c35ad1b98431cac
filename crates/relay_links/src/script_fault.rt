//! The faults of scripts: a read or a write fails by its own kinds alone.
ghost use Rattle.std.specs.Prelude.{◌≡◌};
ghost use Rattle.relay_links.specs.Fault.{as_read_fault, as_write_fault};
ghost use Rattle.relay_links.specs.Link.{IsReadFault, IsWriteFault};

use relay_tasks::{Fault, FaultKind};

/// The fault as a read answers it: `ReadTimedout` stays, and each other kind is `Read`.
pub fn read_fault(fault: Fault) -> Fault
    ensures exact { result ≡ as_read_fault fault }
    ensures kind { IsReadFault result }
{
    let kind = match fault.kind {
        FaultKind::ReadTimedout => FaultKind::ReadTimedout,
        FaultKind::Read
        | FaultKind::Write
        | FaultKind::WriteTimedout
        | FaultKind::Connect
        | FaultKind::H2Error
        | FaultKind::H2Downgrade
        | FaultKind::InvalidH2 => FaultKind::Read,
    };
    Fault {
        kind,
        retry: fault.retry,
    }
}

/// The fault as a write answers it: `WriteTimedout` stays, and each other kind is `Write`.
pub fn write_fault(fault: Fault) -> Fault
    ensures exact { result ≡ as_write_fault fault }
    ensures kind { IsWriteFault result }
{
    let kind = match fault.kind {
        FaultKind::WriteTimedout => FaultKind::WriteTimedout,
        FaultKind::Read
        | FaultKind::ReadTimedout
        | FaultKind::Write
        | FaultKind::Connect
        | FaultKind::H2Error
        | FaultKind::H2Downgrade
        | FaultKind::InvalidH2 => FaultKind::Write,
    };
    Fault {
        kind,
        retry: fault.retry,
    }
}
