//! Whether the packets of each class leave in the order in which they came.
ghost use Rattle.std.specs.Prelude.{◌≡◌, Some, true};

use std::alloc::Global;
use steer_base::{OutOfMemory, PacketId};

// Whether a packet is there, and is this one.
fn is_packet(packet: Option<PacketId>, id: PacketId) -> bool
    ensures yes { result ≡ true → packet ≡ Some id }
    ensures no { packet ≡ Some id → result ≡ true }
{
    match packet {
        None => false,
        Some(other) => other == id,
    }
}

/// For each class the packet that has to leave next, and for each packet the one of its class that
/// comes after it.
#[derive(Drop)]
pub struct Chains {
    first: Vec<Option<PacketId>>,
    next: Vec<Option<PacketId>>,
}

impl Chains {
    ghost use Rattle.std.specs.Prelude.{ℕ, ◌≡◌, ◌<◌, ◌≤◌, ◌++◌, [], ◌∷◌, List, None, IfOk, length};
    ghost use Rattle.std.specs.Prelude.{Option, false, slice_index_or, true};
    ghost use Rattle.std.specs.List.{All};
    ghost use Rattle.std.specs.Option.{ForSome};
    ghost use Rattle.steer_base.specs.Entries.{place_in};
    ghost use Rattle.steer_base.specs.Orders.{IsPrefix};
    ghost use Rattle.history.specs.Finding.{Once};
    ghost use Rattle.rule_check.specs.Chains.{AreChained, AreLeft, in_class};

    // The chains of no packets.
    fn empty(alloc: Global, classes: usize, packets: usize) -> Result<Chains, OutOfMemory>
        ensures chained { IfOk result (λ chains. (of_packets : List (Option ℕ))
            → AreChained of_packets chains []) }
        ensures classes { IfOk result (λ chains. length chains.first.items ≡ classes) }
        ensures packets { IfOk result (λ chains. length chains.next.items ≡ packets) }
    {
        let mut first = Vec::new(alloc);
        first.resize(classes, None)?;
        let mut next = Vec::new(alloc);
        next.resize(packets, None)?;
        Ok(Chains { first, next })
    }

    // Puts a packet of a class before those that are chained.
    fn put_first(&mut self, classes: &[Option<u32>], id: PacketId)
        requires within { id < length classes.now }
        requires packets { length self.old.next.items ≡ length classes.now }
        requires classes { ForSome (slice_index_or classes.now id None)
            (λ class. class < length self.old.first.items) }
        ensures chained { (xs : List ℕ) → AreChained classes.now self.old xs
            → place_in id xs ≡ None → AreChained classes.now self.new (id ∷ xs) }
        ensures classes { length self.new.first.items ≡ length self.old.first.items }
        ensures packets { length self.new.next.items ≡ length self.old.next.items }
    {
        if let Some(class) = classes[id.0 as usize] {
            self.next[id.0 as usize] = self.first[class as usize];
            self.first[class as usize] = Some(id);
        }
    }

    /// The chains of packets, each at most once, in their order. `classes` has the class of each
    /// packet, if it has one, and there are `count` classes.
    pub fn make(
        alloc: Global,
        classes: &[Option<u32>],
        count: usize,
        came: &[PacketId],
    ) -> Result<Chains, OutOfMemory>
        requires within { All (λ x. x < length classes.now) came.now }
        requires classes { All (λ class. ForSome class (λ k. k < count)) classes.now }
        requires once { Once came.now }
        ensures left { IfOk result (λ chains. AreLeft classes.now chains came.now []) }
        ensures classes { IfOk result (λ chains. length chains.first.items ≡ count) }
        ensures packets { IfOk result (λ chains.
            length chains.next.items ≡ length classes.now) }
    {
        let mut chains = Chains::empty(alloc, count, classes.len())?;
        let mut left = came.len();
        while left > 0 {
            left -= 1;
            chains.put_first(classes, came[left]);
        }
        Ok(chains)
    }

    // Takes a packet out of the chain of its class, if it is the first there. A packet without a
    // class is in no chain.
    fn take(&mut self, classes: &[Option<u32>], id: PacketId) -> bool
        requires packets { length self.old.next.items ≡ length classes.now }
        requires within { id < length classes.now }
        requires classes { ForSome (slice_index_or classes.now id None)
            (λ class. class < length self.old.first.items) }
        ensures yes { result ≡ true → (came gone : List ℕ)
            → AreLeft classes.now self.old came gone
            → AreLeft classes.now self.new came (gone ++ id ∷ []) }
        ensures no { result ≡ false → (came gone more : List ℕ)
            → AreLeft classes.now self.old came gone
            → ((class : ℕ) → class < length self.old.first.items
            → IsPrefix (in_class classes.now class (gone ++ id ∷ more))
            (in_class classes.now class came)) → ⊥ }
        ensures classes { length self.new.first.items ≡ length self.old.first.items }
        ensures packets { length self.new.next.items ≡ length self.old.next.items }
    {
        let Some(class) = classes[id.0 as usize] else {
            return true;
        };
        if !is_packet(self.first[class as usize], id) {
            return false;
        }
        self.first[class as usize] = self.next[id.0 as usize];
        true
    }

    /// Whether these packets leave next, class by class in the order in which they came.
    pub fn leave(&mut self, classes: &[Option<u32>], leaving: &[PacketId]) -> bool
        requires packets { length self.old.next.items ≡ length classes.now }
        requires within { All (λ x. x < length classes.now) leaving.now }
        requires classes { All (λ class. ForSome class (λ k. k < length self.old.first.items))
            classes.now }
        ensures yes { result ≡ true → (came gone : List ℕ)
            → AreLeft classes.now self.old came gone
            → AreLeft classes.now self.new came (gone ++ leaving.now) }
        ensures no { result ≡ false → (came gone more : List ℕ)
            → AreLeft classes.now self.old came gone
            → ((class : ℕ) → class < length self.old.first.items
            → IsPrefix (in_class classes.now class (gone ++ (leaving.now ++ more)))
            (in_class classes.now class came)) → ⊥ }
        ensures classes { length self.new.first.items ≡ length self.old.first.items }
        ensures packets { length self.new.next.items ≡ length self.old.next.items }
    {
        for id in leaving {
            if !self.take(classes, *id) {
                return false;
            }
        }
        true
    }
}
