ghost use Rattle.std.specs.{Prelude.{◌≡◌, ◌+◌, ◌≤◌, length, find, option_map, IfOk, IfErr, Ok}, Option.{option_copied}};
ghost use Rattle.ix_policy.specs.{Policies.{policy, HasCause, RulesFit}, Deciding.{decide, matches, numbered}};

use crate::fault::PolicyFault;
use crate::reading::rules_in;
use crate::request::{Request, Verdict};
use crate::rule::Rule;
use ix_label::{Form, Label, Steps};
use ix_model::{List, PrivSet};
use serde_json::Value;
use std::alloc::Global;
use std::marker::Model;
use std::sync::ledger::Ledger;

/// The rules of a policy, at most 256. Contracts see their list.
#[derive(Drop)]
pub struct Policy {
    rules: List<Rule>,
}

impl Model for Policy {
    ghost use Rattle.std.specs.{Prelude.{List, ◌≤◌, length}, Coded.{codes}};
    ghost use Rattle.ix_label.specs.contracts.label.Label as label_type;
    ghost use Rattle.ix_policy.specs.declared.rule.Rule.{Rule};

    ghost Value = { List Rule };

    ghost coded = { Prim.hlevel (codes, label_type.the_row.coded) };

    ghost view = { λ p. p.rules };

    ghost invariant = { λ p. length p.rules ≤ 256 };
}

impl Policy {
    /// The policy that the text is, with labels in the form; else why it is none.
    ///
    /// A fault other than `NoMemory` is that of the text: a text that has one is no policy, and a text without one has none told
    /// of it. `NoMemory` may come for any text.
    pub fn read(alloc: Global, form: Form, text: &[u8]) -> Result<Policy, PolicyFault>
        ensures ok { IfOk result (λ rules. policy form text.now ≡ Ok rules) }
        ensures fits { IfOk result (λ rules. RulesFit form rules) }
        ensures err { IfErr result (λ e. HasCause e (policy form text.now)) }
    {
        let value = match Value::from_slice(alloc, text) {
            Ok(value) => value,
            Err(e) => {
                if e.is_memory() {
                    return Err(PolicyFault::NoMemory);
                }
                return Err(PolicyFault::Syntax);
            }
        };
        let rules = rules_in(alloc, form, &value)?;
        Ok(Policy { rules })
    }

    /// The number of the first rule that matches the request, and whether it allows; where none does, rule 0 and denial. It looks
    /// at each rule at most once, and takes at most one step for it.
    #[tactic(auto, unfolding(crate::specs::Deciding::decide, crate::specs::Deciding::decide_from))]
    pub fn decide<L: Ledger>(&self, request: &Request, steps: &mut Steps<L>) -> Verdict
        ensures verdict { result ≡ decide self.now request.now }
        ensures rule { numbered self.now result.rule ≡ find (λ r. matches r request.now) self.now }
        ensures few { result.rule ≤ 256 }
        ensures cost { steps.new ≤ steps.old + length self.now }
        ensures looks { steps.old ≤ steps.new }
    {
        let mut number = 0;
        'rules: for rule in self.rules.as_slice() {
            number += 1;
            if rule.matches(request, steps) {
                return Verdict {
                    rule: number,
                    allow: rule.allow,
                };
            }
        }
        Verdict {
            rule: 0,
            allow: false,
        }
    }

    /// The clearance of a rule by its number, from 1; `None` exactly where there is no such rule.
    pub fn clear(&self, rule: u32) -> Option<Label>
        ensures { result ≡ option_map (λ r. r.clear) (numbered self.now rule) }
    {
        let rule = self.numbered(rule)?;
        Some(rule.clear)
    }

    /// The privileges of a rule by its number, from 1; `None` exactly where there is no such rule.
    pub fn privs(&self, rule: u32) -> Option<PrivSet>
        ensures { result ≡ option_map (λ r. r.privs) (numbered self.now rule) }
    {
        let rule = self.numbered(rule)?;
        Some(rule.privs)
    }

    /// The rules, in order: number 1 is at 0. There are at most 256.
    pub fn rules(&self) -> &[Rule]
        ensures rules { result.now ≡ self.now }
        ensures few { length self.now ≤ 256 }
    {
        self.rules.as_slice()
    }

    /// The rule of a number, from 1; `None` exactly where there is no such rule.
    pub fn numbered(&self, rule: u32) -> Option<&Rule>
        ensures { option_copied result ≡ numbered self.now rule }
    {
        if rule == 0 {
            return None;
        }
        self.rules.get(rule as usize - 1)
    }
}
