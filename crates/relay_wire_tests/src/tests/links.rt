use bytes::Bytes;
use relay_links::*;
use relay_tasks::{Fault, FaultKind, PurgeAction, Purged, RetryType};
use std::alloc::{AllocError, Global};
use std::io;

type Made<T> = Result<T, AllocError>;

const TIMED_OUT: Fault = Fault {
    kind: FaultKind::ReadTimedout,
    retry: RetryType::ReusedOnly,
};

/// One read into a room of three bytes, as a caller that is generic over links makes it.
fn read_three<L: ByteLink>(link: &mut L) -> (Got, [u8; 3]) {
    let mut room = [0; 3];
    let got = link.read(&mut room);
    (got, room)
}

/// A link that reads so, and takes two bytes and then all.
fn link_of(alloc: Global, first: ReadItem, second: ReadItem) -> Made<ScriptLink> {
    let read = vec![in alloc; first, second]?;
    let write = vec![in alloc; WriteItem::Wait(1), WriteItem::Take(2)]?;
    Ok(ScriptLink::new(alloc, read, write))
}

fn reads_its_items(alloc: Global) -> Made<bool> {
    let bytes = ReadItem::Bytes(Bytes::from_static(b"GET /"));
    let mut link = link_of(alloc, bytes, ReadItem::Fault(TIMED_OUT))?;
    let first = read_three(&mut link) == (Got::Bytes(3), *b"GET");
    let second = read_three(&mut link) == (Got::Bytes(2), [b' ', b'/', 0]);
    let third = read_three(&mut link).0 == Got::Failed(TIMED_OUT);
    Ok(first && second && third && link.used() == 3 && link.faults() == 1)
}

#[test]
fn reads_are_answered_by_the_items_in_order(rt: HostRuntime) {
    assert!(rt; matches!(reads_its_items(rt.alloc()), Ok(true)));
}

fn is_silent_till_written_to(alloc: Global) -> Made<bool> {
    let mut link = link_of(alloc, ReadItem::After(2), ReadItem::End)?;
    let silent = read_three(&mut link).0;
    let first = link.write(b"ab");
    let second = link.write(b"ab");
    let end = read_three(&mut link).0;
    Ok(silent == Got::Silent && first == Put::NotReady && second == Put::Took(2) && end == Got::End)
}

#[test]
fn a_silence_ends_with_the_bytes_that_it_waits_for(rt: HostRuntime) {
    assert!(rt; matches!(is_silent_till_written_to(rt.alloc()), Ok(true)));
}

fn keeps_what_it_takes(alloc: Global) -> Made<bool> {
    let mut link = link_of(alloc, ReadItem::Wait(1), ReadItem::End)?;
    let waits = link.write(b"abc") == Put::NotReady;
    let takes = link.write(b"abc") == Put::Took(2);
    link.hand_out(true);
    Ok(waits && takes && link.taken() == b"ab".as_slice() && link.start_taken() == 2)
}

#[test]
fn writes_are_answered_by_the_items_in_order(rt: HostRuntime) {
    assert!(rt; matches!(keeps_what_it_takes(rt.alloc()), Ok(true)));
}

fn lists(alloc: Global) -> Made<bool> {
    let mut list = ListSchedule::new(vec![in alloc; Branch::UpRead]?);
    let first = list.pick(BranchSet::new());
    let second = list.pick(BranchSet::new());
    Ok(first == Some(Branch::UpRead) && second.is_none() && list.last().is_none())
}

#[test]
fn a_list_names_its_branches(rt: HostRuntime) {
    assert!(rt; matches!(lists(rt.alloc()), Ok(true)));
}

fn both_down() -> BranchSet {
    let mut enabled = BranchSet::new();
    enabled.insert(Branch::MessageDown);
    enabled.insert(Branch::DownRead);
    enabled
}

fn goes_round() -> bool {
    let mut round = RoundRobin::new();
    let first = round.pick(both_down());
    let second = round.pick(both_down());
    first == both_down().first()
        && second == Some(Branch::MessageDown)
        && round.last() == Some(Branch::MessageDown)
}

#[test]
fn a_round_names_what_is_enabled(rt: HostRuntime) {
    assert!(rt; goes_round());
}

/// One read into a room of three bytes.
fn take_three<S: Source>(source: &mut S) -> Read {
    let mut room = [0; 3];
    source.read(&mut room)
}

fn source_fails(alloc: Global) -> Made<bool> {
    let mut source = SliceSource::new(b"abcd", vec![in alloc; 2]?);
    let first = take_three(&mut source);
    let second = take_three(&mut source);
    Ok(first == Read::Bytes(3) && second == Read::Failed && source.faults() == 1)
}

fn sink_fails(alloc: Global) -> Made<bool> {
    let mut sink = VecSink::new(alloc, vec![in alloc; 1]?);
    let first = sink.write(b"lost");
    let second = sink.write(b"kept");
    let kept = sink.bytes() == b"kept".as_slice() && sink.faults() == 1;
    Ok(first == Wrote::Failed && second == Wrote::Took(4) && kept)
}

#[test]
fn a_source_and_a_sink_fail_at_the_listed_calls(rt: HostRuntime) {
    assert!(rt; matches!(source_fails(rt.alloc()), Ok(true)));
    assert!(rt; matches!(sink_fails(rt.alloc()), Ok(true)));
}

fn gives_what_its_reader_gives() -> bool {
    let mut source = StdSource::new(b"ab".as_slice());
    let first = take_three(&mut source);
    let second = take_three(&mut source);
    first == Read::Bytes(2) && second == Read::End && source.faults() == 0
}

#[test]
fn a_standard_source_gives_what_its_reader_gives(rt: HostRuntime) {
    assert!(rt; gives_what_its_reader_gives());
}

#[test]
fn a_standard_sink_takes_what_its_writer_takes(rt: HostRuntime) {
    let mut sink = StdSink::new(io::sink());
    let took = sink.write(b"ab");
    assert!(rt; took == Wrote::Took(2) && sink.faults() == 0);
}

fn is_set_second() -> bool {
    let mut watch = ShutdownAt::new(Some(2));
    let first = watch.is_set();
    let second = watch.is_set();
    !first && second && watch.sightings() == 1
}

#[test]
fn a_watch_is_set_from_its_look_on(rt: HostRuntime) {
    assert!(rt; is_set_second());
}

fn delays() -> bool {
    let mut delay = CountDelay::new();
    delay.delay(30);
    delay.delay(12);
    delay.calls() == 2 && delay.total() == 42
}

#[test]
fn a_delay_counts(rt: HostRuntime) {
    assert!(rt; delays());
}

fn purges(alloc: Global) -> bool {
    let mut purger = MemoryPurger::new(alloc, Purged::Failed(TIMED_OUT));
    let answer = purger.purge(PurgeAction::Delete, b"host", b"/");
    answer == Purged::Failed(TIMED_OUT) && purger.faults() == 1 && purger.calls().len() == 1
}

#[test]
fn a_purger_keeps_its_calls(rt: HostRuntime) {
    assert!(rt; purges(rt.alloc()));
}

fn is_mute() -> bool {
    let mut mute = MuteLink::new(false);
    let took = mute.write(b"ab");
    let got = read_three(&mut mute).0;
    took == Put::Took(2) && got == Got::End && mute.used() == 2 && mute.faults() == 0
}

#[test]
fn a_mute_link_takes_all_and_has_ended(rt: HostRuntime) {
    assert!(rt; is_mute());
}
