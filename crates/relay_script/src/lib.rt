//! The application of a script: a proxy whose hooks do what a list of rules says.
#![tactic(auto)]

mod answered;
mod check;
mod checked;
mod filtered;
mod rule;

pub use answered::{Answered, apply_rules};
pub use check::{RuleError, RuleFault, check_rules, may_stand};
pub use checked::{CheckedRules, filter_response};
pub use filtered::{Filtered, run_rules};
pub use rule::{Action, Rule};
