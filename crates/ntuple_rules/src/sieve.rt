//! Tells which of `GROUPS` groups have no rule for a flow, without a look at them.
ghost use Rattle.std.specs.Prelude.{◌≡◌, ◌+◌, ◌*◌, ◌<◌, ◌≤◌, ℕ, bit_and, length, true, OnOk};
ghost use Rattle.std.specs.Int.{bit_at};
ghost use Rattle.steer_base.specs.declared.flow.Flow.{Flow as AFlow};
ghost use Rattle.ntuple_rules.specs.Matches.{matches};
ghost use Rattle.ntuple_rules.specs.Sieves.{digit_at, digits_of, digits_of_kind, AllowsFields};
ghost use Rattle.ntuple_rules.specs.Sieves.{AllowsFlow, AllowsMore, AllowsNumber, AllowsRule};
ghost use Rattle.ntuple_rules.specs.Sieves.{IsIn, Keeps};
ghost use Rattle.ntuple_rules.specs.declared.sieve.TheConstants.{DPORT_ROW, GROUPS, IPV6_DIGITS};
ghost use Rattle.ntuple_rules.specs.declared.sieve.TheConstants.{PORT_DIGITS, ROWS, VALUES};

use crate::fields::{Fields, fields_with, key_of, shape_of};
use crate::kind::is_ipv4;
use crate::rule::{Rule, RuleKind};
use std::alloc::Global;
use steer_base::{Flow, OutOfMemory, Pair};

/// The groups that one sieve is for.
pub const GROUPS: usize = 64;

/// The number of the first groups, which are in no sieve: so few are looked into about as soon as a
/// sieve is asked, which may tell nothing.
pub const ALWAYS: usize = 16;

/// The bits of a digit.
const DIGIT_BITS: usize = 4;

/// The values that a digit can have.
const VALUES: usize = 16;

/// The digits of both addresses and both ports.
const ROWS: usize = 72;

/// The row of the destination address's lowest digit. The source address's is the first row.
const DST_ROW: usize = 32;

/// The row of the source port's lowest digit.
const SPORT_ROW: usize = 64;

/// The row of the destination port's lowest digit.
const DPORT_ROW: usize = 68;

/// The digits of a port.
const PORT_DIGITS: usize = 4;

/// The digits of an IPv4 address.
const IPV4_DIGITS: usize = 8;

/// The digits of an IPv6 address, the most that a field has.
const IPV6_DIGITS: usize = 32;

/// Sets of 64 groups, with a bit for each; 9,216 bytes. There is a row of 16 sets for each digit of
/// each field, and in it a set for each value of that digit: the groups that have a rule which
/// accepts this value there. A group that has a rule for a flow is in the sets of all its digits.
#[derive(Drop)]
pub struct Sieve {
    sets: Vec<u64>,
}

/// A digit of a number, the lowest first.
fn digit_of(number: u128, digit: usize) -> usize
    requires { digit < IPV6_DIGITS }
    ensures value { result ≡ digit_at number digit }
    ensures small { result < VALUES }
{
    ((number >> (DIGIT_BITS * digit)) % VALUES as u128) as usize
}

/// How many digits the addresses of a pair have.
fn digits_of(pair: Pair) -> usize
    ensures { result ≡ digits_of pair }
{
    match pair {
        Pair::V4 { .. } => IPV4_DIGITS,
        Pair::V6 { .. } => IPV6_DIGITS,
    }
}

/// How many digits the addresses of a kind of rules have.
fn digits_of_kind(kind: RuleKind) -> usize
    ensures { result ≡ digits_of_kind kind }
{
    if is_ipv4(kind) {
        IPV4_DIGITS
    } else {
        IPV6_DIGITS
    }
}

/// Adds the group at a place to the set at an index, if there is one.
fn add_to(sets: &mut Vec<u64>, index: usize, place: u32)
    requires { place < GROUPS }
    ensures kept { Keeps sets.old.items sets.new.items }
    ensures is_in { IsIn sets.new.items index place }
{
    if index < sets.len() {
        sets[index] |= 1 << place;
    }
}

/// Adds the group at a place to the sets, in this row, of the values that agree with a digit of a
/// key under its mask.
fn admit_digit(sets: &mut Vec<u64>, place: u32, row: usize, mask: usize, key: usize)
    requires place { place < GROUPS }
    requires row { row < ROWS }
    ensures kept { Keeps sets.old.items sets.new.items }
    ensures admits { (v : ℕ) → v < VALUES → bit_and v mask ≡ key
        → IsIn sets.new.items (VALUES * row + v) place }
{
    for value in 0..VALUES {
        if value & mask == key {
            add_to(sets, VALUES * row + value, place);
        }
    }
}

/// Adds the group at a place to the sets of the numbers that agree with a key under its mask.
fn admit_number(sets: &mut Vec<u64>, place: u32, row: usize, digits: usize, mask: u128, key: u128)
    requires place { place < GROUPS }
    requires row { row ≤ DPORT_ROW }
    requires rows { row + digits ≤ ROWS }
    requires digits { digits ≤ IPV6_DIGITS }
    ensures kept { Keeps sets.old.items sets.new.items }
    ensures admits { (n : ℕ) → bit_and n mask ≡ key
        → AllowsNumber sets.new.items row digits place n }
{
    for digit in 0..digits {
        let mask = digit_of(mask, digit);
        let key = digit_of(key, digit);
        admit_digit(sets, place, row + digit, mask, key);
    }
}

/// Adds the group at a place to the sets of the ports that agree with a key under its mask.
fn admit_port(sets: &mut Vec<u64>, place: u32, row: usize, mask: u16, key: u16)
    requires place { place < GROUPS }
    requires row { row ≤ DPORT_ROW }
    ensures kept { Keeps sets.old.items sets.new.items }
    ensures admits { (n : ℕ) → bit_and n mask ≡ key
        → AllowsNumber sets.new.items row PORT_DIGITS place n }
{
    let mask = u128::from(mask);
    let key = u128::from(key);
    admit_number(sets, place, row, PORT_DIGITS, mask, key);
}

/// The set at an index, or the set of all groups where there is none.
fn set_at(sets: &[u64], index: usize) -> u64
    ensures { (place : ℕ) → place < GROUPS → IsIn sets.now index place → bit_at result place ≡ 1 }
{
    match sets.get(index) {
        Some(set) => *set,
        None => u64::MAX,
    }
}

/// Those of the candidates that the sets of a number's digits have too.
fn narrowed(sets: &[u64], candidates: u64, row: usize, digits: usize, number: u128) -> u64
    requires row { row ≤ DPORT_ROW }
    requires rows { row + digits ≤ ROWS }
    requires digits { digits ≤ IPV6_DIGITS }
    ensures { (place : ℕ) → place < GROUPS → bit_at candidates place ≡ 1
        → AllowsNumber sets.now row digits place number → bit_at result place ≡ 1 }
{
    let mut left = candidates;
    for digit in 0..digits {
        if left == 0 {
            return left;
        }
        left &= set_at(sets, VALUES * (row + digit) + digit_of(number, digit));
    }
    left
}

impl Sieve {
    /// A sieve of groups without rules.
    fn new(alloc: Global) -> Result<Sieve, OutOfMemory> {
        let sets = Vec::from_elem(alloc, 0, ROWS * VALUES)?;
        Ok(Sieve { sets })
    }

    /// Adds a rule to those of the group at a place.
    fn admit(&mut self, place: u32, rule: &Rule)
        requires { place < GROUPS }
        ensures kept { Keeps self.old.sets.items self.new.sets.items }
        ensures admits { (flow : AFlow) → matches rule.now flow ≡ true
            → AllowsFlow self.new.sets.items place flow }
    {
        let mask = shape_of(rule).mask;
        let key = key_of(rule);
        let digits = digits_of_kind(rule.kind);
        let sets = &mut self.sets;
        admit_number(sets, place, 0, digits, mask.src, key.src);
        admit_number(sets, place, DST_ROW, digits, mask.dst, key.dst);
        admit_port(sets, place, SPORT_ROW, mask.sport, key.sport);
        admit_port(sets, place, DPORT_ROW, mask.dport, key.dport);
    }

    /// The groups that the sets of all four fields have.
    fn allowed(&self, digits: usize, fields: Fields) -> u64
        requires { digits ≤ IPV6_DIGITS }
        ensures { (place : ℕ) → place < GROUPS
            → AllowsFields self.now.sets.items digits place fields → bit_at result place ≡ 1 }
    {
        let sets = self.sets.as_slice();
        let sport = u128::from(fields.sport);
        let dport = u128::from(fields.dport);
        let left = narrowed(sets, u64::MAX, DPORT_ROW, PORT_DIGITS, dport);
        let left = narrowed(sets, left, 0, digits, fields.src);
        let left = narrowed(sets, left, DST_ROW, digits, fields.dst);
        narrowed(sets, left, SPORT_ROW, PORT_DIGITS, sport)
    }

    /// The set of the groups that may have a rule for a flow: a group that is not in it has none.
    pub fn candidates(&self, flow: Flow) -> u64
        ensures { (place : ℕ) → place < GROUPS → AllowsFlow self.now.sets.items place flow
            → bit_at result place ≡ 1 }
    {
        match flow {
            Flow::Bare => 0,
            Flow::Two(pair) => self.allowed(digits_of(pair), fields_with(pair, 0, 0)),
            Flow::Four(pair, _, sport, dport) => {
                self.allowed(digits_of(pair), fields_with(pair, sport, dport))
            }
        }
    }
}

/// Makes sieves of groups without rules, up to the one at an index.
fn make_up_to(alloc: Global, sieves: &mut Vec<Sieve>, index: usize) -> Result<(), OutOfMemory>
    ensures more { OnOk result (AllowsMore sieves.old.items sieves.new.items) }
    ensures enough { OnOk result (index < length sieves.new.items) }
{
    while sieves.len() <= index {
        let sieve = Sieve::new(alloc)?;
        sieves.push(sieve)?;
    }
    Ok(())
}

/// Adds a rule to those of the group at a place of all groups. Allocates memory for the sieves up
/// to that group's, where they are missing. The first groups of all need none.
pub fn admit(
    alloc: Global,
    sieves: &mut Vec<Sieve>,
    place: usize,
    rule: &Rule,
) -> Result<(), OutOfMemory>
    ensures more { OnOk result (AllowsMore sieves.old.items sieves.new.items) }
    ensures rule { OnOk result (AllowsRule sieves.new.items place rule.now) }
{
    if place < ALWAYS {
        return Ok(());
    }
    let index = place / GROUPS;
    make_up_to(alloc, sieves, index)?;
    sieves[index].admit((place % GROUPS) as u32, rule);
    Ok(())
}
