//! Rules that keep all conditions.
ghost use Rattle.std.specs.Prelude.{◌≡◌, IfOk, IfErr, Err, IsTrue, IsOkUnless};
ghost use Rattle.relay_script.specs.Actions.{informs, on_response};
ghost use Rattle.relay_script.specs.Fold.{Answers, run_rules};
ghost use Rattle.relay_script.specs.Lawful.{verdict_of, are_lawful};

use crate::check::{RuleError, check_rules};
use crate::filtered::run_rules;
use crate::rule::Rule;
use relay_tasks::{Fail, Hook, ResponseHeader};
use std::alloc::{AllocError, Global};
use std::marker::Model;

/// A list of rules that keeps all conditions. A contract sees the list.
#[derive(Drop)]
pub struct CheckedRules {
    rules: Vec<Rule>,
}

impl Model for CheckedRules {
    ghost use Rattle.std.specs.Prelude.{List, IsTrue};
    ghost use Rattle.relay_script.specs.Lawful.{are_lawful};
    ghost use Rattle.relay_script.specs.declared.rule.Rule.{Rule};

    ghost Value = { List Rule };

    ghost view = { λ c. c.rules.items };

    ghost invariant = { λ c. IsTrue (are_lawful c.rules.items) };
}

impl CheckedRules {
    /// The rules, where each keeps all conditions; else the first that breaks one, and which.
    pub fn new(rules: Vec<Rule>) -> Result<CheckedRules, RuleError>
        ensures ok { IfOk result (λ checked. checked ≡ rules.items) }
        ensures refused { IfErr result (λ error. verdict_of rules.items ≡ Err error) }
    {
        check_rules(rules.as_slice())?;
        Ok(CheckedRules { rules })
    }

    /// The rules in order.
    pub fn as_slice(&self) -> &[Rule]
        ensures value { result.now ≡ self.now }
        ensures lawful { IsTrue (are_lawful self.now) }
    {
        self.rules.as_slice()
    }

    /// Equal rules.
    pub fn copy(&self) -> relay_tasks::Result<CheckedRules>
        ensures ok { IfOk result (λ copy. copy ≡ self.now) }
        ensures memory { IsOkUnless result Fail.OutOfMemory }
    {
        let rules = copy_rules(*self.rules.allocator(), self.rules.as_slice())?;
        Ok(CheckedRules { rules })
    }
}

/// Runs the rules of the hook on a response's head, up to the first that fails. Whatever it
/// answers, an informational head stays one, and a final head stays one (RFC 9110, section 15.2).
pub fn filter_response(
    rules: &CheckedRules,
    hook: Hook,
    head: &mut ResponseHeader,
) -> relay_tasks::Result<()>
    ensures answers { Answers result head.new (run_rules on_response hook rules.now head.old) }
    ensures kind { informs head.new.status ≡ informs head.old.status }
{
    run_rules(rules.as_slice(), hook, head)
}

fn copy_rules(alloc: Global, rules: &[Rule]) -> relay_tasks::Result<Vec<Rule>>
    ensures ok { IfOk result (λ copy. copy.items ≡ rules.now) }
    ensures memory { IsOkUnless result Fail.OutOfMemory }
{
    let mut copy = Vec::new(alloc);
    for rule in rules {
        copy.push(rule.copy()?).map_err(AllocError::from)?;
    }
    Ok(copy)
}
