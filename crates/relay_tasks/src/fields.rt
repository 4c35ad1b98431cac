//! Changes of a field list that may be refused (RFC 9110, section 5).
ghost use Rattle.std.specs.Prelude.{◌≡◌, ◌↔◌, IfErr, OnOk, OnErr, IsErrOf};
ghost use Rattle.http_header.specs.HeaderMap.{RefusesInsert, RefusesAppend, insert, append};
ghost use Rattle.relay_tasks.specs.Error.{refused, IsMemoryOr};

use crate::context::Context;
use crate::error::{Fail, Result};
use http_header::{HeaderMap, HeaderName, HeaderValue};

/// Puts the value in place of all those under the name. Refused exactly where the list is full; it
/// then stays as it was.
pub(crate) fn insert_field(
    fields: &mut HeaderMap,
    name: HeaderName,
    value: HeaderValue,
) -> Result<()>
    ensures ok { OnOk result (fields.new ≡ insert fields.old name value) }
    ensures full { IsErrOf result (Fail.Error (refused Context.HeadTooLong))
        ↔ RefusesInsert fields.old name }
    ensures causes { IfErr result (IsMemoryOr (refused Context.HeadTooLong)) }
    ensures err { OnErr result (fields.new ≡ fields.old) }
{
    fields.insert(name, value)?;
    Ok(())
}

/// Adds the value after those under the name. Refused exactly where the list is full; it then stays
/// as it was.
pub(crate) fn append_field(
    fields: &mut HeaderMap,
    name: HeaderName,
    value: HeaderValue,
) -> Result<()>
    ensures ok { OnOk result (fields.new ≡ append fields.old name value) }
    ensures full { IsErrOf result (Fail.Error (refused Context.HeadTooLong))
        ↔ RefusesAppend fields.old name }
    ensures causes { IfErr result (IsMemoryOr (refused Context.HeadTooLong)) }
    ensures err { OnErr result (fields.new ≡ fields.old) }
{
    fields.append(name, value)?;
    Ok(())
}
