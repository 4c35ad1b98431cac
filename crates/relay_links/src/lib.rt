//! The outside of the relay: links, the connector that hands them out, the schedule, the shutdown
//! watch, the delay, the purger, the poller, sources and sinks, each as a trait with its meaning.
#![tactic(auto)]

mod branch;
mod branch_set;
mod count_delay;
mod delay;
mod failing_calls;
mod link;
mod list_schedule;
mod memory_purger;
mod mute_link;
mod poller;
mod purger;
mod read_script;
mod room;
mod round_robin;
mod schedule;
mod script_fault;
mod script_link;
mod shutdown_at;
mod sink;
mod slice_source;
mod source;
mod std_sink;
mod std_source;
mod vec_sink;
mod watch;
mod write_script;

pub use branch::{BRANCHES, Branch};
pub use branch_set::BranchSet;
pub use count_delay::CountDelay;
pub use delay::Delay;
pub use link::{ByteLink, Got, Put, UpKind};
pub use list_schedule::ListSchedule;
pub use memory_purger::MemoryPurger;
pub use mute_link::MuteLink;
pub use poller::{Listening, Polled, Poller};
pub use purger::{PurgeCall, Purger};
pub use read_script::{ReadItem, ReadScript};
pub use round_robin::RoundRobin;
pub use schedule::Schedule;
pub use script_link::{ScriptLink, ScriptStart};
pub use shutdown_at::ShutdownAt;
pub use sink::{Sink, Wrote};
pub use slice_source::SliceSource;
pub use source::{Read, Source};
pub use std_sink::StdSink;
pub use std_source::StdSource;
pub use vec_sink::VecSink;
pub use watch::ShutdownWatch;
pub use write_script::{WriteItem, WriteScript};
