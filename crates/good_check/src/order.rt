//! Whether the packets of each class leave in the order in which they came.
ghost use Rattle.std.specs.Prelude.{◌≡◌, ◌<◌, ◌≤◌, IfOk, length, true};
ghost use Rattle.std.specs.List.{All, concat};
ghost use Rattle.std.specs.Option.{ForSome};
ghost use Rattle.history.specs.Finding.{Once};
ghost use Rattle.good_check.specs.Order.{LeftInOrder};

use rule_check::Chains;
use std::alloc::Global;
use steer_base::{List, OutOfMemory, PacketId};

// A number of classes, or one more than this class if that is more.
fn with_class(count: usize, class: Option<u32>) -> usize
    ensures least { count ≤ result }
    ensures within { ForSome class (λ k. k < result) }
{
    match class {
        None => count,
        Some(class) => count.max(class as usize + 1),
    }
}

// One more than the greatest class.
fn class_count(classes: &[Option<u32>]) -> usize
    ensures { All (λ class. ForSome class (λ k. k < result)) classes.now }
{
    let mut count = 0;
    for class in classes {
        count = with_class(count, *class);
    }
    count
}

// Whether, of each class, the packets that left are the first ones of those that came, in their
// order. `classes` has the class of each packet, if it has one.
pub(crate) fn leave_in_order(
    alloc: Global,
    classes: &[Option<u32>],
    came: &[PacketId],
    left: &[PacketId],
) -> Result<bool, OutOfMemory>
    requires came { All (λ x. x < length classes.now) came.now }
    requires left { All (λ x. x < length classes.now) left.now }
    requires once { Once came.now }
    ensures yes { IfOk result (λ r. r ≡ true → LeftInOrder classes.now came.now left.now) }
    ensures no { IfOk result (λ r. LeftInOrder classes.now came.now left.now → r ≡ true) }
{
    let mut chains = Chains::make(alloc, classes, class_count(classes), came)?;
    Ok(chains.leave(classes, left))
}

// The packets of all these lists, list after list.
pub(crate) fn joined(
    alloc: Global,
    lists: &List<List<PacketId>>,
) -> Result<Vec<PacketId>, OutOfMemory>
    ensures { IfOk result (λ packets. packets.items ≡ concat lists.now) }
{
    let mut packets = Vec::new(alloc);
    for list in lists.as_slice() {
        packets.extend_from_slice(list.as_slice())?;
    }
    Ok(packets)
}
