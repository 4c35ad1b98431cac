//! Values: what each kind of JSON value that a script is made of is read as, and what is at the keys
//! of an object.
ghost use Rattle.std.specs.Prelude.{◌≡◌};
ghost use Rattle.serde_json.specs.Find.{get};
ghost use Rattle.serde_json.specs.View.{view};
ghost use Rattle.relay_json.specs.Values.{Reads, text_of, count_of, flag_of, retry_of, key_count, has};

use crate::script::ScriptError;
use bytes::Bytes;
use relay_tasks::RetryType;
use serde_json::Value;
use std::alloc::Global;

/// The text that a value is.
pub(crate) fn word(value: &Value) -> Result<&str, ScriptError>
    ensures { Reads (λ word. word.now) result (text_of (view value.now)) }
{
    match value.as_str() {
        Some(word) => Ok(word),
        None => Err(ScriptError::Refused),
    }
}

/// The bytes of the text that a value is.
pub(crate) fn text(alloc: Global, value: &Value) -> Result<Bytes, ScriptError>
    ensures { Reads (λ text. text) result (text_of (view value.now)) }
{
    Ok(Bytes::copy_from_slice(alloc, word(value)?.as_bytes())?)
}

/// The number that a value is.
pub(crate) fn count(value: &Value) -> Result<u32, ScriptError>
    ensures { Reads (λ count. count) result (count_of (view value.now)) }
{
    match value.as_u64() {
        Some(count) if count <= u32::MAX as u64 => Ok(count as u32),
        Some(_) | None => Err(ScriptError::Refused),
    }
}

/// The yes or no that a value is.
pub(crate) fn flag(value: &Value) -> Result<bool, ScriptError>
    ensures { Reads (λ flag. flag) result (flag_of (view value.now)) }
{
    match value.as_bool() {
        Some(on) => Ok(on),
        None => Err(ScriptError::Refused),
    }
}

/// The mark that a value is.
pub(crate) fn retry(value: &Value) -> Result<RetryType, ScriptError>
    ensures { Reads (λ mark. mark) result (retry_of (view value.now)) }
{
    if let Some(on) = value.as_bool() {
        return Ok(RetryType::Decided(on));
    }
    match value.as_str() {
        Some("reused") => Ok(RetryType::ReusedOnly),
        Some(_) | None => Err(ScriptError::Refused),
    }
}

/// How many keys an object has.
pub(crate) fn key_count(value: &Value) -> usize
    ensures { result ≡ key_count (view value.now) }
{
    match value.as_object() {
        Some(members) => members.len(),
        None => 0,
    }
}

/// 1 where the object has the key, and else 0.
pub(crate) fn has(value: &Value, key: &str) -> usize
    ensures { result ≡ has key.now (view value.now) }
{
    if value.get(key).is_some() { 1 } else { 0 }
}

/// What is at a key that has to be there.
pub(crate) fn required<'v>(value: &'v Value, key: &str) -> Result<&'v Value, ScriptError>
    ensures { Reads (λ found. view found.now) result (get key.now (view value.now)) }
{
    match value.get(key) {
        Some(found) => Ok(found),
        None => Err(ScriptError::Refused),
    }
}
