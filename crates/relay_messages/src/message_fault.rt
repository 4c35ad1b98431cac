//! The faults of scripts: a receiving and a sending call fail by their own kinds alone.
ghost use Rattle.std.specs.Prelude.{◌≡◌};
ghost use Rattle.relay_messages.specs.MessageFault.{as_receive_fault, as_send_fault};
ghost use Rattle.relay_messages.specs.MessageLink.{IsReceiveFault, IsSendFault};

use relay_tasks::{Fault, FaultKind};

/// The fault as a receiving call answers it: `Write`, `WriteTimedout` and `Connect` are `Read`.
pub fn receive_fault(fault: Fault) -> Fault
    ensures exact { result ≡ as_receive_fault fault }
    ensures kind { IsReceiveFault result }
{
    let kind = match fault.kind {
        FaultKind::ReadTimedout
        | FaultKind::H2Error
        | FaultKind::H2Downgrade
        | FaultKind::InvalidH2 => fault.kind,
        FaultKind::Read | FaultKind::Write | FaultKind::WriteTimedout | FaultKind::Connect => {
            FaultKind::Read
        }
    };
    Fault {
        kind,
        retry: fault.retry,
    }
}

/// The fault as a sending call answers it: `WriteTimedout` and `H2Error` stay, and each other kind
/// is `Write`.
pub fn send_fault(fault: Fault) -> Fault
    ensures exact { result ≡ as_send_fault fault }
    ensures kind { IsSendFault result }
{
    let kind = match fault.kind {
        FaultKind::WriteTimedout | FaultKind::H2Error => fault.kind,
        FaultKind::Read | FaultKind::ReadTimedout | FaultKind::Write => FaultKind::Write,
        FaultKind::Connect | FaultKind::H2Downgrade | FaultKind::InvalidH2 => FaultKind::Write,
    };
    Fault {
        kind,
        retry: fault.retry,
    }
}
