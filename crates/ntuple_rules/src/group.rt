//! Rules of one kind and with the same masks.
ghost use Rattle.std.specs.Prelude.{◌≡◌, ◌+◌, All, IfOk, IfSome, OnOk};
ghost use Rattle.ntuple_rules.specs.Groups.{found_at, lesser, AddsAt, FindsAsBefore, FindsMoreAt};
ghost use Rattle.ntuple_rules.specs.Groups.{FindsNoMore, IsAt, KeepsOrder, StartsAtFirst};

use crate::fields::{Fields, Shape, key_of, looked_at, masked, shape_of};
use crate::rule::Rule;
use indexmap::IndexMap;
use std::alloc::Global;
use steer_base::{Flow, OutOfMemory};

/// The rules of one shape: for each key, the number of the first rule that has it.
#[derive(Drop)]
pub struct Group {
    shape: Shape,
    /// The number of the group's first rule; no number of the group is less.
    pub first: u32,
    numbers: IndexMap<Fields, u32>,
}

impl Group {
    ghost use Rattle.ntuple_rules.specs.Groups.{Adds, IsNew, found_in};

    /// A group that has no rules yet, which takes no memory. The rule with this number will be its
    /// first.
    fn new(alloc: Global, shape: Shape, first: u32) -> Group
        ensures { IsNew result shape first }
    {
        Group {
            shape,
            first,
            numbers: IndexMap::new(alloc),
        }
    }

    /// Adds a rule with a greater number than those of the group.
    fn add(&mut self, key: Fields, number: u32) -> Result<(), OutOfMemory>
        ensures { OnOk result (Adds self.old self.new key number) }
    {
        if self.numbers.get(&key).is_some() {
            return Ok(());
        }
        match self.numbers.insert(key, number) {
            Ok(_) => Ok(()),
            Err(_) => Err(OutOfMemory),
        }
    }

    /// The number of the first rule of the group that matches the flow, or `None`.
    pub fn find(&self, flow: Flow) -> Option<u32>
        ensures { result ≡ found_in self.now flow }
    {
        let fields = looked_at(self.shape.kind, flow)?;
        self.numbers.get(&masked(self.shape.mask, fields)).copied()
    }
}

/// The lesser of two optional numbers.
fn lesser(first: Option<u32>, second: Option<u32>) -> Option<u32>
    ensures { result ≡ lesser first second }
{
    match (first, second) {
        (None, other) => other,
        (Some(number), None) => Some(number),
        (Some(number), Some(other)) => Some(number.min(other)),
    }
}

/// The place of the group of a shape, where there is one.
fn find_shape(groups: &[Group], shape: Shape) -> Option<usize>
    ensures { IfSome result (λ place. IsAt groups.now place shape) }
{
    for (place, group) in groups.iter().enumerate() {
        if group.shape == shape {
            return Some(place);
        }
    }
    None
}

/// The place of the group of a shape. Where there was none it is a new one at the end, whose first
/// rule will be that with this number.
fn place_of(
    alloc: Global,
    groups: &mut Vec<Group>,
    shape: Shape,
    number: u32,
) -> Result<usize, OutOfMemory>
    ensures no_more { OnOk result (FindsNoMore groups.old.items groups.new.items) }
    ensures same { OnOk result (FindsAsBefore groups.old.items groups.new.items) }
    ensures order { OnOk result (KeepsOrder groups.old.items number groups.new.items number) }
    ensures at { IfOk result (λ place. IsAt groups.new.items place shape) }
{
    match find_shape(groups, shape) {
        Some(place) => Ok(place),
        None => {
            let place = groups.len();
            let group = Group::new(alloc, shape, number);
            groups.push(group)?;
            Ok(place)
        }
    }
}

/// Adds a rule with this number, which is greater than those of the rules that the groups have, and
/// returns the place of its group. Allocates memory for the rule, and for a group if it is the
/// first of its shape.
pub fn add(
    alloc: Global,
    groups: &mut Vec<Group>,
    number: u32,
    rule: &Rule,
) -> Result<usize, OutOfMemory>
    ensures more { IfOk result (λ place.
        FindsMoreAt groups.old.items groups.new.items place rule.now) }
    ensures finds { OnOk result (AddsAt groups.old.items groups.new.items number rule.now) }
    ensures order { OnOk result (KeepsOrder groups.old.items number groups.new.items (number + 1)) }
{
    let shape = shape_of(rule);
    let key = key_of(rule);
    let place = place_of(alloc, groups, shape, number)?;
    groups[place].add(key, number)?;
    Ok(place)
}

/// The lesser of what was found and what the group at a place finds, if there is one. The group is
/// not looked into if its first rule comes after what was found.
pub fn find_at(groups: &[Group], place: usize, flow: Flow, found: Option<u32>) -> Option<u32>
    requires { All StartsAtFirst groups.now }
    ensures { result ≡ lesser found (found_at groups.now place flow) }
{
    match (groups.get(place), found) {
        (Some(group), Some(number)) if number < group.first => found,
        (Some(group), _) => lesser(found, group.find(flow)),
        (None, _) => found,
    }
}
