//! What no script of `examples/` can show: the words, an input past the limit, faults of the source
//! and of the sink, and what a script is read as.
use relay_command::{Command, parse_words, run_command, run_script};
use relay_links::{SliceSource, VecSink};
use std::alloc::{AllocError, Global};

mod again;
mod cuts;
mod faults;
mod keys;
mod rules;
mod serving;
mod support;

/// What a run of the words over an input wrote, behind the number of its status and a space.
fn answer(alloc: Global, words: &[&str], input: &[u8]) -> Result<String, AllocError> {
    let mut given = Vec::new(alloc);
    for word in words {
        given.push(Vec::from_slice(alloc, word.as_bytes())?)?;
    }
    let mut source = SliceSource::new(input, Vec::new(alloc));
    let mut sink = VecSink::new(alloc, Vec::new(alloc));
    let status = match parse_words(&given) {
        Some(Command::Serve(_, _)) => return format!(in alloc; "asks to serve"),
        Some(Command::Run | Command::Gen(_) | Command::Pair) | None => {
            run_command(alloc, &given, &mut source, &mut sink)
        }
    };
    let text = String::from_utf8_lossy(alloc, sink.bytes())?;
    format!(in alloc; "{status} {text}")
}

const USAGE: &str = "6 usage: relay run | relay gen N | relay pair | relay serve PORT PEER\n";

const REFUSED: &str = "2 script refused\n";

/// Whether a run of the words over an input writes this.
fn writes(alloc: Global, words: &[&str], input: &[u8], text: &str) -> bool {
    match answer(alloc, words, input) {
        Ok(found) => found.as_str() == text,
        Err(AllocError) => false,
    }
}

#[test]
fn runs_nothing_but_its_words(rt: HostRuntime) {
    let alloc = rt.alloc();
    assert!(rt; writes(alloc, &["x"], b"{}", USAGE));
    assert!(rt; writes(alloc, &[], b"{}", USAGE));
    assert!(rt; writes(alloc, &["run", "run"], b"{}", USAGE));
    assert!(rt; writes(alloc, &["serve", "080", "81"], b"{}", USAGE));
    assert!(rt; writes(alloc, &["serve", "80", "65535"], b"{}", "asks to serve"));
    assert!(rt; writes(alloc, &["run"], b"{}", REFUSED));
}

#[test]
fn refuses_more_than_it_reads(rt: HostRuntime) -> Result<(), AllocError> {
    let input = vec![in rt.alloc(); b' '; 16_777_217]?;
    assert!(rt; writes(rt.alloc(), &["run"], &input, REFUSED));
    Ok(())
}

/// Whether a run of `{}` whose source and sink fail at these calls ends with that status, and the
/// sink took nothing.
fn ends_at_faults(alloc: Global, source: Vec<u64>, sink: Vec<u64>, status: u8) -> bool {
    let mut source = SliceSource::new(b"{}", source);
    let mut sink = VecSink::new(alloc, sink);
    run_script(alloc, &mut source, &mut sink) == status && sink.bytes().is_empty()
}

#[test]
fn tells_the_faults_of_source_and_sink(rt: HostRuntime) -> Result<(), AllocError> {
    let alloc = rt.alloc();
    let second = vec![in alloc; 2u64; 1]?;
    assert!(rt; ends_at_faults(alloc, second, Vec::new(alloc), 3));
    let first = vec![in alloc; 1u64; 1]?;
    assert!(rt; ends_at_faults(alloc, Vec::new(alloc), first, 4));
    Ok(())
}
