//! What the program does: the run of a script, with its report, and the serving of a port for a
//! peer at another.
#![tactic(auto)]

mod announcer;
mod exchange;
mod report;
mod run;
mod serving;
mod transfer;
mod words;

pub use exchange::run_exchanges;
pub use report::{AttemptReport, RequestReport, report_text, shown_alone};
pub use run::{Status, run_command, run_script};
pub use serving::serve;
pub use words::{Command, parse_words};
