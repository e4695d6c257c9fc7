//! Finds the first rule that matches a flow.
ghost use Rattle.std.specs.Prelude.{◌≡◌, ◌≤◌, length, IfOk};
ghost use Rattle.ntuple_rules.specs.Matches.{first_match};
ghost use Rattle.ntuple_rules.specs.declared.rules.TheConstants.{MAX_RULES};

use crate::group::{Group, add};
use crate::rule::Rule;
use crate::rules::Rules;
use crate::search::{candidates, find_among};
use crate::sieve::{GROUPS, Sieve, admit};
use std::alloc::Global;
use std::marker::Model;
use steer_base::{Flow, OutOfMemory};

/// Finds the first of some rules that matches a flow. Rules of the same kind with the same masks
/// form a group, in which a flow is looked up once, whatever the number of its rules. For each 64
/// groups a sieve tells which of them have no rule for a flow, so that it is not looked up there.
/// The groups stand in the order of their first rules, so that a match before the first rule of a
/// group makes an end. Contracts see the list of the rules.
#[derive(Drop)]
pub struct Classifier {
    rules: Vec<Rule>,
    groups: Vec<Group>,
    sieves: Vec<Sieve>,
}

impl Model for Classifier {
    ghost use Rattle.std.specs.Prelude.{List};
    ghost use Rattle.ntuple_rules.specs.declared.rule.Rule.{Rule as ARule};
    ghost use Rattle.ntuple_rules.specs.Sieves.{Serves};

    ghost Value = { List ARule };

    ghost view = { λ c. c.rules.items };

    ghost invariant = { λ c. Serves c.groups.items c.sieves.items c.rules.items };
}

impl Classifier {
    /// A classifier of these rules, in their order. Allocates memory for a copy of the rules, for
    /// their groups and for the sieves; `OutOfMemory` is the only error.
    pub fn make(alloc: Global, rules: &Rules) -> Result<Classifier, OutOfMemory>
        requires few { length rules.now.rules ≤ MAX_RULES }
        ensures { IfOk result (λ classifier. classifier ≡ rules.now.rules) }
    {
        let mut groups = Vec::new(alloc);
        let mut sieves = Vec::new(alloc);
        for (number, rule) in rules.rules.as_slice().iter().enumerate() {
            let place = add(alloc, &mut groups, number as u32, rule)?;
            admit(alloc, &mut sieves, place, rule)?;
        }
        let rules = rules.rules.as_slice().to_vec(alloc)?;
        Ok(Classifier {
            rules,
            groups,
            sieves,
        })
    }

    /// The index, from 0, of the first rule that matches the flow, or `None` if no rule does; a
    /// `Flow::Bare` matches none. Allocates nothing.
    pub fn find(&self, flow: &Flow) -> Option<u32>
        ensures { result ≡ first_match self.now flow.now }
    {
        let groups = self.groups.as_slice();
        let mut found = None;
        let mut place = 0;
        while place < groups.len() {
            match found {
                Some(number) if number < groups[place].first => return found,
                _ => {
                    let left = candidates(self.sieves.as_slice(), place, *flow);
                    found = find_among(groups, place, left, *flow, found);
                }
            }
            place += GROUPS;
        }
        found
    }
}
