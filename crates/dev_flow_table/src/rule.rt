//! The rule by which a class keeps its lane or moves to the desired one.
ghost use Rattle.std.specs.Prelude.{◌≡◌, unwrap_or};
ghost use Rattle.std.specs.Option.{is_some};
ghost use Rattle.steer_base.specs.Choices.{by_entry, looks_from};
ghost use Rattle.steer_base.specs.Sets.{has};
ghost use Rattle.dev_flow_table.specs.Tables.{entry_after};

use steer_base::{Choice, CpuMask, Entry, Why, reached};

/// The input of a choice.
#[derive(Clone, Copy)]
pub struct Wish {
    /// The class.
    pub class: u32,
    /// The wanted lane, as it was read.
    pub want: Option<u8>,
    /// The desired lane.
    pub desired: u8,
}

/// The choice of the lane for a class with this entry. `head` is the head of its current lane,
/// given if and only if the rule looks at it.
pub fn choose(wish: Wish, entry: Entry, head: Option<u32>, online: CpuMask) -> Choice
    requires { is_some head ≡ looks_from entry.lane wish.desired (has online) }
    ensures { result ≡ by_entry wish.class wish.want wish.desired entry.tail
        (λ _. unwrap_or head 0) (has online) entry.lane }
{
    let found = |head: Option<u32>, lane: u8, why: Why| Choice {
        class: Some(wish.class),
        want: wish.want,
        head,
        tail: Some(entry.tail),
        lane,
        why,
    };
    let Some(current) = entry.lane else {
        return found(None, wish.desired, Why::Unset);
    };
    if current == wish.desired {
        return found(None, current, Why::Same);
    }
    match head {
        None => found(None, wish.desired, Why::Offline),
        Some(seen) if reached(seen, entry.tail, 0) => found(head, wish.desired, Why::Passed),
        Some(_) => found(head, current, Why::Kept),
    }
}

/// The entry after a choice. A class that moved has no accepted packet at its new lane. The
/// counters of the lanes begin at the number `start`.
pub fn entry_after(start: u32, entry: Entry, choice: &Choice) -> Entry
    ensures { result ≡ entry_after start entry choice.now }
{
    let tail = if choice.why.moved() {
        start
    } else {
        entry.tail
    };
    Entry {
        lane: Some(choice.lane),
        tail,
    }
}
