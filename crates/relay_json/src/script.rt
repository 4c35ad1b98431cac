//! Scripts: what the client and the peers of a run give, read from JSON. A reader for each kind of
//! thing; a script is read whole before anything runs.
ghost use Rattle.std.specs.Prelude.{◌≡◌, ◌≤◌, IfOk, is_some, codes, if◌then◌else◌, option_map, Some};
ghost use Rattle.hex.specs.Hex.{decode_of};
ghost use Rattle.serde_json.specs.Find.{get};
ghost use Rattle.serde_json.specs.View.{view, items_view};
ghost use Rattle.relay_json.specs.Script.{script_spec, reads_script, reads_value, script_of, link_keys, peer_spec, peer_specs, peer_keys, peer_of, peers_in, peers_of, named_peer, connect_of, again_of, limit_of, requests_of, retries_of, items_of, write_items_of, writes_at, item_of, write_item_of, item_at_key, write_item_at_key, client_script, script_keys, turns_of, purge_of, answer_of, found_answer, answer_so, branch_of, branches_of, schedule_of, take_item, text_item, spelt, hex_item, wait_item, after_item, end_item, read_kind, write_kind, mark_of, fault_of};
ghost use Rattle.relay_json.specs.Values.{Reads, each_of};

use crate::retries::Retries;
use crate::rules::rules;
use crate::values::{count, flag, has, key_count, required, retry, text};
use bytes::Bytes;
use hex::FromHexError;
use relay_links::{Branch, ReadItem, WriteItem};
use relay_script::CheckedRules;
use relay_tasks::{Fault, FaultKind, Purged, RetryType};
use serde_json::Value;
use std::alloc::{AllocError, AllocFailed, Global};

/// How many turns a request may take where its script does not say.
const TURNS: u64 = 1_000_000;

/// How many attempts a request may make where its script does not say.
const RETRIES: usize = 2;

/// The fault of a purger that fails: no kind of fault is a purger's own.
const PURGE_FAULT: Fault = Fault {
    kind: FaultKind::Write,
    retry: RetryType::Decided(false),
};

/// How many peers a script has at most, how many requests, and how many attempts each.
const LIMIT: usize = 1_024;

/// A peer of a script: its name, what its link gives and takes, the mark of the fault that is
/// answered in place of the link, where there is one, and whether the link is handed out as used
/// before, in place of the link that came back last to be kept and was not used again yet.
#[derive(Drop)]
pub struct PeerEntry {
    pub name: Bytes,
    pub read: Vec<ReadItem>,
    pub write: Vec<WriteItem>,
    pub connect: Option<RetryType>,
    pub again: bool,
}

/// A script: what the client's link gives and takes, the peers in the order in which they are
/// asked, how many requests are run at most, how many attempts and how many turns each may take,
/// the schedule over all of them, what the purger answers, and the rules on their hooks.
#[derive(Drop)]
pub struct Script {
    pub client: Vec<ReadItem>,
    pub client_write: Vec<WriteItem>,
    pub peers: Vec<PeerEntry>,
    pub requests: u64,
    pub retries: Retries,
    pub turns: u64,
    pub schedule: Vec<Branch>,
    pub purge: Purged,
    pub rules: CheckedRules,
}

/// Why no script was read.
#[derive(Clone, Copy, Debug, PartialEq, Eq)]
pub enum ScriptError {
    /// The bytes spell none.
    Refused,
    /// A rule stands on a hook that the proxy does not call yet. It is taken once the proxy does.
    HookNotCalled,
    OutOfMemory,
}

impl From<AllocError> for ScriptError {
    ghost use Rattle.std.specs.Prelude.{◌≡◌};
    ghost use Rattle.relay_json.specs.declared.script.ScriptError.TheVariants.{OutOfMemory};

    ghost from_gives = { λ _ e. e ≡ OutOfMemory };

    fn from(_error: AllocError) -> ScriptError {
        ScriptError::OutOfMemory
    }
}

impl<T: Drop> From<AllocFailed<T>> for ScriptError {
    ghost use Rattle.std.specs.Prelude.{◌≡◌};
    ghost use Rattle.relay_json.specs.declared.script.ScriptError.TheVariants.{OutOfMemory};

    ghost from_gives = { λ _ e. e ≡ OutOfMemory };

    fn from(_error: AllocFailed<T>) -> ScriptError {
        ScriptError::OutOfMemory
    }
}

/// Reads a script. `Refused` comes only where the bytes spell none.
pub fn read_script(alloc: Global, bytes: &[u8]) -> Result<Script, ScriptError>
    ensures { Reads script_spec result (reads_script bytes.now) }
{
    let value = parse(alloc, bytes)?;
    script_in(alloc, &value)
}

/// The value that the bytes spell.
fn parse(alloc: Global, bytes: &[u8]) -> Result<Value, ScriptError>
    ensures { Reads view result (reads_value bytes.now) }
{
    match Value::from_slice(alloc, bytes) {
        Ok(value) => Ok(value),
        Err(error) => {
            if error.is_memory() {
                return Err(ScriptError::OutOfMemory);
            }
            Err(ScriptError::Refused)
        }
    }
}

/// The script that a value is.
fn script_in(alloc: Global, value: &Value) -> Result<Script, ScriptError>
    ensures { Reads script_spec result (script_of (view value.now)) }
{
    if key_count(value) != script_keys(value) {
        return Err(ScriptError::Refused);
    }
    let client = items(alloc, required(value, "client")?)?;
    client_script(alloc, value, client)
}

/// How many keys of a script an object has.
fn script_keys(value: &Value) -> usize
    ensures { result ≡ script_keys (view value.now) }
{
    link_keys(value) + has(value, "schedule") + has(value, "purge") + has(value, "hooks")
}

/// How many of those that are of its links, and of how much is run.
fn link_keys(value: &Value) -> usize
    ensures keys { result ≡ link_keys (view value.now) }
    ensures few { result ≤ 6 }
{
    has(value, "client")
        + has(value, "client_write")
        + has(value, "peers")
        + has(value, "requests")
        + has(value, "retries")
        + has(value, "turns")
}

/// The script that a value is, with those items of the client.
fn client_script(alloc: Global, value: &Value, client: Vec<ReadItem>) -> Result<Script, ScriptError>
    ensures { Reads script_spec result (client_script (view value.now) client.items) }
{
    let client_write = writes_at(alloc, value, "client_write")?;
    let peers = peers(alloc, required(value, "peers")?)?;
    let requests = requests(value)?;
    let retries = retries(value)?;
    let turns = turns(value)?;
    let schedule = schedule(alloc, value)?;
    let purge = purge(value)?;
    let rules = rules(alloc, value)?;
    Ok(Script {
        client,
        client_write,
        peers,
        requests,
        retries,
        turns,
        schedule,
        purge,
        rules,
    })
}

/// How many requests of a script are run at most: one where it does not say.
fn requests(value: &Value) -> Result<u64, ScriptError>
    ensures { Reads (λ requests. requests) result (requests_of (view value.now)) }
{
    match value.get("requests") {
        Some(number) => Ok(u64::from(limit(count(number)?)?)),
        None => Ok(1),
    }
}

/// How many attempts each request of a script may make: two where it does not say.
fn retries(value: &Value) -> Result<Retries, ScriptError>
    ensures { Reads (λ retries. retries.most) result (retries_of (view value.now)) }
{
    match value.get("retries") {
        Some(number) => Ok(Retries::new(limit(count(number)?)? as usize)),
        None => Ok(Retries::new(RETRIES)),
    }
}

/// A number of requests or of attempts, from 1 to 1,024.
fn limit(number: u32) -> Result<u32, ScriptError>
    ensures reads { Reads (λ number. number) result (limit_of number) }
    ensures some { IfOk result (λ number. 1 ≤ number) }
{
    if number >= 1 && number as usize <= LIMIT {
        return Ok(number);
    }
    Err(ScriptError::Refused)
}

/// How many turns each request of a script may take.
fn turns(value: &Value) -> Result<u64, ScriptError>
    ensures { Reads (λ turns. turns) result (turns_of (view value.now)) }
{
    match value.get("turns") {
        Some(number) => Ok(count(number)? as u64),
        None => Ok(TURNS),
    }
}

/// The schedule of a script, and none where there is no such key.
fn schedule(alloc: Global, value: &Value) -> Result<Vec<Branch>, ScriptError>
    ensures { Reads (λ branches. branches.items) result (schedule_of (view value.now)) }
{
    match value.get("schedule") {
        Some(list) => branches(alloc, list),
        None => Ok(Vec::new(alloc)),
    }
}

/// What the purger of a script answers: that it found nothing, where the script does not say.
fn purge(value: &Value) -> Result<Purged, ScriptError>
    ensures { Reads (λ answer. answer) result (purge_of (view value.now)) }
{
    match value.get("purge") {
        Some(answer) => purge_answer(answer),
        None => Ok(Purged::NotFound),
    }
}

/// What a purger answers, by the one key of an object.
fn purge_answer(value: &Value) -> Result<Purged, ScriptError>
    ensures { Reads (λ answer. answer) result (answer_of (view value.now)) }
{
    if key_count(value) != 1 {
        return Err(ScriptError::Refused);
    }
    if let Some(found) = value.get("found") {
        return purge_found(found);
    }
    if let Some(nothing) = value.get("none") {
        return where_true(nothing, Purged::NoCache);
    }
    if let Some(failed) = value.get("fault") {
        return where_true(failed, Purged::Failed(PURGE_FAULT));
    }
    Err(ScriptError::Refused)
}

/// Whether the purger found something.
fn purge_found(value: &Value) -> Result<Purged, ScriptError>
    ensures { Reads (λ answer. answer) result (found_answer (view value.now)) }
{
    match value.as_bool() {
        Some(true) => Ok(Purged::Found),
        Some(false) => Ok(Purged::NotFound),
        None => Err(ScriptError::Refused),
    }
}

/// That answer, of a value that says yes.
fn where_true(value: &Value, answer: Purged) -> Result<Purged, ScriptError>
    ensures { Reads (λ answer. answer) result (answer_so answer (view value.now)) }
{
    match value.as_bool() {
        Some(true) => Ok(answer),
        Some(false) | None => Err(ScriptError::Refused),
    }
}

/// The branches of a list.
fn branches(alloc: Global, value: &Value) -> Result<Vec<Branch>, ScriptError>
    ensures { Reads (λ branches. branches.items) result (branches_of (view value.now)) }
{
    match value.as_array() {
        Some(values) => each_branch(alloc, values),
        None => Err(ScriptError::Refused),
    }
}

/// The branches that values name, in order.
fn each_branch(alloc: Global, values: &[Value]) -> Result<Vec<Branch>, ScriptError>
    ensures { Reads (λ branches. branches.items) result
        (each_of branch_of (items_view values.now)) }
{
    let mut branches = Vec::new(alloc);
    for value in values {
        let branch = branch(value)?;
        branches.push(branch)?;
    }
    Ok(branches)
}

/// The branch that a value names.
fn branch(value: &Value) -> Result<Branch, ScriptError>
    ensures { Reads (λ branch. branch) result (branch_of (view value.now)) }
{
    match value.as_str() {
        Some("UpWrite") => Ok(Branch::UpWrite),
        Some("DownWrite") => Ok(Branch::DownWrite),
        Some("UpTake") => Ok(Branch::UpTake),
        Some("DownTake") => Ok(Branch::DownTake),
        Some("DownDrop") => Ok(Branch::DownDrop),
        Some("DownEnd") => Ok(Branch::DownEnd),
        Some("DownClosed") => Ok(Branch::DownClosed),
        Some("UpRead") => Ok(Branch::UpRead),
        Some("DownRead") => Ok(Branch::DownRead),
        Some("UpFinish") => Ok(Branch::UpFinish),
        Some("DownFinish") => Ok(Branch::DownFinish),
        Some("MessageUp") => Ok(Branch::MessageUp),
        Some("MessageDown") => Ok(Branch::MessageDown),
        Some(_) | None => Err(ScriptError::Refused),
    }
}

/// The write items at a key, and none where there is no such key.
fn writes_at(alloc: Global, value: &Value, key: &str) -> Result<Vec<WriteItem>, ScriptError>
    ensures { Reads (λ items. items.items) result (writes_at key.now (view value.now)) }
{
    match value.get(key) {
        Some(list) => write_items(alloc, list),
        None => Ok(Vec::new(alloc)),
    }
}

/// The peers of a list.
fn peers(alloc: Global, value: &Value) -> Result<Vec<PeerEntry>, ScriptError>
    ensures { Reads (λ peers. peer_specs peers.items) result (peers_of (view value.now)) }
{
    match value.as_array() {
        Some(values) => peers_in(alloc, values),
        None => Err(ScriptError::Refused),
    }
}

/// The peers that values are, at most 1,024.
fn peers_in(alloc: Global, values: &[Value]) -> Result<Vec<PeerEntry>, ScriptError>
    ensures { Reads (λ peers. peer_specs peers.items) result (peers_in (items_view values.now)) }
{
    if values.len() > LIMIT {
        return Err(ScriptError::Refused);
    }
    each_peer(alloc, values)
}

/// The peers that values are, in order.
fn each_peer(alloc: Global, values: &[Value]) -> Result<Vec<PeerEntry>, ScriptError>
    ensures { Reads (λ peers. peer_specs peers.items) result
        (each_of peer_of (items_view values.now)) }
{
    let mut peers = Vec::new(alloc);
    for value in values {
        let peer = peer(alloc, value)?;
        peers.push(peer)?;
    }
    Ok(peers)
}

/// The peer that a value is.
fn peer(alloc: Global, value: &Value) -> Result<PeerEntry, ScriptError>
    ensures { Reads peer_spec result (peer_of (view value.now)) }
{
    if key_count(value) != peer_keys(value) {
        return Err(ScriptError::Refused);
    }
    let name = text(alloc, required(value, "name")?)?;
    named_peer(alloc, value, name)
}

/// How many keys of a peer an object has.
fn peer_keys(value: &Value) -> usize
    ensures { result ≡ peer_keys (view value.now) }
{
    has(value, "name")
        + has(value, "read")
        + has(value, "write")
        + has(value, "connect")
        + has(value, "again")
}

/// The peer of that name that a value is.
fn named_peer(alloc: Global, value: &Value, name: Bytes) -> Result<PeerEntry, ScriptError>
    ensures { Reads peer_spec result (named_peer (view value.now) name) }
{
    let read = match value.get("read") {
        Some(list) => items(alloc, list)?,
        None => Vec::new(alloc),
    };
    let write = writes_at(alloc, value, "write")?;
    let connect = connect(value)?;
    let again = again(value)?;
    Ok(PeerEntry {
        name,
        read,
        write,
        connect,
        again,
    })
}

/// The mark of the fault that is answered in place of a peer's link, where there is one.
fn connect(value: &Value) -> Result<Option<RetryType>, ScriptError>
    ensures { Reads (λ connect. connect) result (connect_of (view value.now)) }
{
    match value.get("connect") {
        Some(mark) => Ok(Some(retry(mark)?)),
        None => Ok(None),
    }
}

/// Whether a peer's link is one that is used again; it is not where there is no such key.
fn again(value: &Value) -> Result<bool, ScriptError>
    ensures { Reads (λ again. again) result (again_of (view value.now)) }
{
    match value.get("again") {
        Some(on) => flag(on),
        None => Ok(false),
    }
}

/// The read items of a list.
fn items(alloc: Global, value: &Value) -> Result<Vec<ReadItem>, ScriptError>
    ensures { Reads (λ items. items.items) result (items_of (view value.now)) }
{
    match value.as_array() {
        Some(values) => each_item(alloc, values),
        None => Err(ScriptError::Refused),
    }
}

/// The read items that values are, in order.
fn each_item(alloc: Global, values: &[Value]) -> Result<Vec<ReadItem>, ScriptError>
    ensures { Reads (λ items. items.items) result (each_of item_of (items_view values.now)) }
{
    let mut items = Vec::new(alloc);
    for value in values {
        let item = item(alloc, value)?;
        items.push(item)?;
    }
    Ok(items)
}

/// The read item that a value is.
fn item(alloc: Global, value: &Value) -> Result<ReadItem, ScriptError>
    ensures { Reads (λ item. item) result (item_of (view value.now)) }
{
    if let Some(name) = value.get("fault") {
        let kind = read_kind(name)?;
        return Ok(ReadItem::Fault(fault(value, kind)?));
    }
    if key_count(value) != 1 {
        return Err(ScriptError::Refused);
    }
    item_by_key(alloc, value)
}

/// The read item other than a fault, by its key.
fn item_by_key(alloc: Global, value: &Value) -> Result<ReadItem, ScriptError>
    ensures { Reads (λ item. item) result (item_at_key (view value.now)) }
{
    if let Some(text) = value.get("text") {
        return given(alloc, text);
    }
    if let Some(digits) = value.get("hex") {
        return digits_given(alloc, digits);
    }
    if let Some(number) = value.get("wait") {
        return Ok(ReadItem::Wait(count(number)?));
    }
    if let Some(number) = value.get("after") {
        return Ok(ReadItem::After(count(number)?));
    }
    if let Some(ended) = value.get("end") {
        return end(ended);
    }
    Err(ScriptError::Refused)
}

/// The write items of a list.
fn write_items(alloc: Global, value: &Value) -> Result<Vec<WriteItem>, ScriptError>
    ensures { Reads (λ items. items.items) result (write_items_of (view value.now)) }
{
    match value.as_array() {
        Some(values) => each_write_item(alloc, values),
        None => Err(ScriptError::Refused),
    }
}

/// The write items that values are, in order.
fn each_write_item(alloc: Global, values: &[Value]) -> Result<Vec<WriteItem>, ScriptError>
    ensures { Reads (λ items. items.items) result (each_of write_item_of (items_view values.now)) }
{
    let mut items = Vec::new(alloc);
    for value in values {
        let item = write_item(value)?;
        items.push(item)?;
    }
    Ok(items)
}

/// The write item that a value is.
fn write_item(value: &Value) -> Result<WriteItem, ScriptError>
    ensures { Reads (λ item. item) result (write_item_of (view value.now)) }
{
    if let Some(name) = value.get("fault") {
        let kind = write_kind(name)?;
        return Ok(WriteItem::Fault(fault(value, kind)?));
    }
    if key_count(value) != 1 {
        return Err(ScriptError::Refused);
    }
    write_item_by_key(value)
}

/// The write item other than a fault, by its key.
fn write_item_by_key(value: &Value) -> Result<WriteItem, ScriptError>
    ensures { Reads (λ item. item) result (write_item_at_key (view value.now)) }
{
    if let Some(number) = value.get("take") {
        return take(number);
    }
    if let Some(number) = value.get("wait") {
        return Ok(WriteItem::Wait(count(number)?));
    }
    Err(ScriptError::Refused)
}

/// One write takes at most so many bytes, at least 1.
fn take(value: &Value) -> Result<WriteItem, ScriptError>
    ensures { Reads (λ item. item) result (take_item (view value.now)) }
{
    let most = count(value)?;
    if most == 0 {
        return Err(ScriptError::Refused);
    }
    Ok(WriteItem::Take(most))
}

/// The bytes of a text that is not empty.
fn given(alloc: Global, value: &Value) -> Result<ReadItem, ScriptError>
    ensures { Reads (λ item. item) result (text_item (view value.now)) }
{
    let Value::String(text) = value else {
        return Err(ScriptError::Refused);
    };
    if text.is_empty() {
        return Err(ScriptError::Refused);
    }
    let bytes = Bytes::copy_from_slice(alloc, text.as_bytes())?;
    Ok(ReadItem::Bytes(bytes))
}

/// The bytes that digits spell, at least one.
fn digits_given(alloc: Global, value: &Value) -> Result<ReadItem, ScriptError>
    ensures { Reads (λ item. item) result (hex_item (view value.now)) }
{
    let Value::String(digits) = value else {
        return Err(ScriptError::Refused);
    };
    let bytes = spelt(alloc, digits.as_str())?;
    if bytes.is_empty() {
        return Err(ScriptError::Refused);
    }
    Ok(ReadItem::Bytes(Bytes::from_vec(bytes)?))
}

/// The bytes that digits spell.
fn spelt(alloc: Global, digits: &str) -> Result<Vec<u8>, ScriptError>
    ensures { Reads (λ bytes. bytes.items) result (spelt (decode_of digits.now)) }
{
    match hex::decode(alloc, digits) {
        Ok(bytes) => Ok(bytes),
        Err(FromHexError::OutOfMemory) => Err(ScriptError::OutOfMemory),
        Err(
            FromHexError::InvalidHexCharacter { .. }
            | FromHexError::OddLength
            | FromHexError::InvalidStringLength,
        ) => Err(ScriptError::Refused),
    }
}

/// The end.
fn end(value: &Value) -> Result<ReadItem, ScriptError>
    ensures { Reads (λ item. item) result (end_item (view value.now)) }
{
    match value.as_bool() {
        Some(true) => Ok(ReadItem::End),
        Some(false) | None => Err(ScriptError::Refused),
    }
}

/// The kind of a read's fault, by its name.
fn read_kind(name: &Value) -> Result<FaultKind, ScriptError>
    ensures { Reads (λ kind. kind) result (read_kind (view name.now)) }
{
    match name.as_str() {
        Some("Read") => Ok(FaultKind::Read),
        Some("ReadTimedout") => Ok(FaultKind::ReadTimedout),
        Some(_) | None => Err(ScriptError::Refused),
    }
}

/// The kind of a write's fault, by its name.
fn write_kind(name: &Value) -> Result<FaultKind, ScriptError>
    ensures { Reads (λ kind. kind) result (write_kind (view name.now)) }
{
    match name.as_str() {
        Some("Write") => Ok(FaultKind::Write),
        Some("WriteTimedout") => Ok(FaultKind::WriteTimedout),
        Some(_) | None => Err(ScriptError::Refused),
    }
}

/// The fault of this kind that a value is.
fn fault(value: &Value, kind: FaultKind) -> Result<Fault, ScriptError>
    ensures { Reads (λ fault. fault) result (fault_of (view value.now) kind) }
{
    if key_count(value) != 1 + has(value, "retry") {
        return Err(ScriptError::Refused);
    }
    let retry = mark(value)?;
    Ok(Fault { kind, retry })
}

/// The mark of a fault; not to be retried where it has none.
fn mark(value: &Value) -> Result<RetryType, ScriptError>
    ensures { Reads (λ mark. mark) result (mark_of (view value.now)) }
{
    match value.get("retry") {
        Some(mark) => retry(mark),
        None => Ok(RetryType::Decided(false)),
    }
}
