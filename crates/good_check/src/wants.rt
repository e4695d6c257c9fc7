//! Clause 4: the wants of the choices were written to the socket flow table.
ghost use Rattle.std.specs.Prelude.{ℕ, ◌≡◌, ◌||◌, IfOk, OnOk};
ghost use Rattle.std.specs.List.{list_any};
ghost use Rattle.rule_check.specs.Pairs.{has_pair};
ghost use Rattle.good_check.specs.Wants.{is_write_of, was_written};

use crate::case::Case;
use history::SockWrite;
use rule_check::PairSet;
use std::alloc::Global;
use steer_base::{Chosen, List, OutOfMemory, place_of_hash};

// Notes the writes of an application.
fn note_writes(set: &mut PairSet, writes: &[SockWrite]) -> Result<(), OutOfMemory>
    ensures { OnOk result ((n m : ℕ) → has_pair set.new n m
        ≡ (has_pair set.old n m || list_any (is_write_of n m) writes.now)) }
{
    for write in writes {
        set.add(write.entry, write.cpu.0)?;
    }
    Ok(())
}

// The entries and processors of all writes.
fn all_writes(
    alloc: Global,
    entries: usize,
    writes: &List<List<SockWrite>>,
) -> Result<PairSet, OutOfMemory>
    ensures { IfOk result (λ set. (n m : ℕ) → has_pair set n m ≡ was_written n m writes.now) }
{
    let mut set = PairSet::make(alloc, entries)?;
    for list in writes.as_slice() {
        note_writes(&mut set, list.as_slice())?;
    }
    Ok(set)
}

impl Case<'_> {
    ghost use Rattle.std.specs.Prelude.{◌≡◌, IfOk, true};
    ghost use Rattle.std.specs.List.{list_all};
    ghost use Rattle.steer_model.specs.Good.Choices.{WantsAreWritten};
    ghost use Rattle.steer_model.specs.Good.GoodHistory.{never};
    ghost use Rattle.rule_check.specs.Pairs.{has_pair};
    ghost use Rattle.good_check.specs.Cases.{IsPlain, input_of};
    ghost use Rattle.good_check.specs.Wants.{want_is_in};

    // Whether the want of a choice, if it is set, is in a set of writes at the entry of its packet.
    fn is_wanted(&self, set: &PairSet, chosen: &Chosen) -> bool
        ensures { result ≡ want_is_in self.now.given.now self.now.settings.now.sock
            (has_pair set.now) chosen.now }
    {
        let Some(want) = chosen.choice.want else {
            return true;
        };
        match place_of_hash(self.given.hash_of(chosen.id), self.settings.sock()) {
            None => false,
            Some(place) => set.has(place, want),
        }
    }

    // The same of the choices of a queue.
    fn are_wanted(&self, set: &PairSet, choices: &List<Chosen>) -> bool
        ensures { result ≡ list_all (want_is_in self.now.given.now self.now.settings.now.sock
            (has_pair set.now)) choices.now }
    {
        choices
            .as_slice()
            .iter()
            .all(|chosen| self.is_wanted(set, chosen))
    }

    // The same of all queues.
    fn all_are_wanted(&self, set: &PairSet) -> bool
        ensures { result ≡ list_all (list_all (want_is_in self.now.given.now
            self.now.settings.now.sock (has_pair set.now))) self.now.h.now.choices }
    {
        self.h
            .choices
            .as_slice()
            .iter()
            .all(|choices| self.are_wanted(set, choices))
    }

    /// Clause 4: whether each want that is set is the processor of a write at the entry of its
    /// packet's hash.
    ///
    /// # Errors
    ///
    /// `OutOfMemory`, and nothing else.
    pub fn has_wants(&self, alloc: Global) -> Result<bool, OutOfMemory>
        requires plain { IsPlain self.now }
        ensures yes { IfOk result (λ r. r ≡ true
            → WantsAreWritten (input_of self.now) self.now.h.now never) }
        ensures no { IfOk result (λ r. WantsAreWritten (input_of self.now) self.now.h.now never
            → r ≡ true) }
    {
        let set = all_writes(alloc, self.settings.sock() as usize, &self.h.writes)?;
        Ok(self.all_are_wanted(&set))
    }
}
