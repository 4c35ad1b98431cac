//! What the rules of a script are read as where no report shows it: those on hooks that are not
//! called yet, and the types of errors.
use super::support::reports;
use relay_json::{ScriptError, read_script};
use std::alloc::{AllocError, Global};

/// Why a script of these hooks is refused; none where it is not.
fn refusal(alloc: Global, hooks: &str) -> Result<Option<ScriptError>, AllocError> {
    let text = format!(in alloc; r#"{{"client":[],"peers":[],"hooks":{hooks}}}"#)?;
    match read_script(alloc, text.as_bytes()) {
        Ok(_) => Ok(None),
        Err(error) => Ok(Some(error)),
    }
}

/// Rules that are taken; the greatest value that is kept, and one more; a rule of each action that stands on such hooks alone, as it is written; and
/// these with a key that is not theirs, without one, and on a hook that is not theirs.
const HOOKS: [(&str, Option<ScriptError>); 15] = [
    (
        r#"[{"hook":"proxy_upstream_filter","do":"say","on":false}]"#,
        None,
    ),
    (
        r#"[{"hook":"purge_response_filter","do":"remove","name":"a"}]"#,
        None,
    ),
    (
        r#"[{"hook":"persist_connection_context","do":"keep","value":4294967295}]"#,
        None,
    ),
    (
        r#"[{"hook":"persist_connection_context","do":"keep","value":4294967296}]"#,
        Some(ScriptError::Refused),
    ),
    (
        r#"[{"hook":"response_filter","do":"status","code":418}]"#,
        None,
    ),
    (
        r#"[{"hook":"response_body_filter","do":"text","value":"h"}]"#,
        None,
    ),
    (r#"[{"hook":"request_body_filter","do":"drop"}]"#, None),
    (
        r#"[{"hook":"custom_forwarding","do":"inject","up":["a",""],"down":[]}]"#,
        Some(ScriptError::HookNotCalled),
    ),
    (
        r#"[{"hook":"module_request_body","do":"error","type":"ReadError"}]"#,
        None,
    ),
    (
        r#"[{"hook":"response_trailer_filter","do":"error","type":"ReadError"}]"#,
        Some(ScriptError::HookNotCalled),
    ),
    (
        r#"[{"hook":"response_filter","do":"status","value":418}]"#,
        Some(ScriptError::Refused),
    ),
    (
        r#"[{"hook":"response_body_filter","do":"text"}]"#,
        Some(ScriptError::Refused),
    ),
    (
        r#"[{"hook":"request_body_filter","do":"drop","on":true}]"#,
        Some(ScriptError::Refused),
    ),
    (
        r#"[{"hook":"custom_forwarding","do":"inject","up":["a",""],"down":7}]"#,
        Some(ScriptError::Refused),
    ),
    (
        r#"[{"hook":"custom_forwarding","do":"drop"}]"#,
        Some(ScriptError::Refused),
    ),
];

#[test]
fn tells_rules_on_hooks_that_are_not_called(rt: HostRuntime) -> Result<(), AllocError> {
    for (hooks, wanted) in HOOKS {
        let told = refusal(rt.alloc(), hooks)? == wanted;
        assert!(rt; told, "at {hooks}");
    }
    Ok(())
}

/// A request that a hook fails, before the type of its error.
const FAILS: &str = "{\"client\":[{\"text\":\"GET /a HTTP/1.1\\r\\nHost: h.example\\r\\n\\r\\n\"}],\
    \"peers\":[],\"hooks\":[{\"hook\":\"early_request_filter\",\"do\":\"error\",\"type\":\"";

/// Whether a request fails with an error of this type as the report writes it, or the script is
/// refused.
fn is_read(alloc: Global, etype: &str, taken: bool) -> Result<bool, AllocError> {
    let parts = [FAILS, etype, "\"}]}"];
    if !taken {
        return reports(alloc, &parts, &["2 script refused"]);
    }
    let error = format!(in alloc; "error {etype} Unset false")?;
    reports(
        alloc,
        &parts,
        &["0 request 1", "outcome Served", error.as_str()],
    )
}

/// Types of errors as a report writes them, and texts that are none.
const TYPES: [(&str, bool); 14] = [
    ("ReadError", true),
    ("H2Downgrade", true),
    ("HTTPStatus(403)", true),
    ("Custom(0)", true),
    ("Custom(65535)", true),
    ("Custom(65536)", false),
    ("Custom(07)", false),
    ("Custom(+7)", false),
    ("Custom()", false),
    ("Custom(7", false),
    ("Custom", false),
    ("HTTPStatus 403", false),
    ("readerror", false),
    ("", false),
];

#[test]
fn reads_types_of_errors_as_they_are_written(rt: HostRuntime) -> Result<(), AllocError> {
    for (etype, taken) in TYPES {
        assert!(rt; is_read(rt.alloc(), etype, taken)?, "at {etype}");
    }
    Ok(())
}
