//! What the command `place` works out of the frames of a capture.
ghost use Rattle.std.specs.Prelude.{◌≡◌, ◌≤◌, ◌+◌, ◌++◌, [], length, get_or, IfOk};
ghost use Rattle.ntuple_rules.specs.Ranges.{RulesAreWithin};
ghost use Rattle.rss_table.specs.Redirection.{even_table};
ghost use Rattle.steer_top.specs.PlaceText.{hash_for, placed_flow, placed_line, queue_by};
ghost use Rattle.steer_top.specs.PlaceText.{rule_text};
ghost use Rattle.steer_top.specs.PlacedLists.{not_placed};
ghost use Rattle.toeplitz.specs.Toeplitz.{verification_key};

use crate::hash_line::push_packet;
use crate::placed_list::PlacedList;
use crate::writing::PacketLine;
use flow_dissector::dissect;
use ntuple_rules::{Classifier, Rules, fold};
use pcap_reader::FrameSink;
use report::LineBuf;
use rss_table::Reta;
use std::alloc::Global;
use steer_base::{Flow, OutOfMemory, RxQueue};
use toeplitz::{Kinds, TabledKey, verification_key};
use tunnel_dissector::{Inner, dissect_inner};

/// The rules with their groups, the verification key, and the even table over the queues, and of
/// each frame that was taken the flow and how many levels were entered to reach it.
#[derive(Drop)]
pub struct Placer {
    rules: Rules,
    classifier: Classifier,
    key: TabledKey,
    table: Reta,
    placed: PlacedList,
    ghost all: { classifier ≡ rules.rules },
    ghost verified: { key ≡ verification_key },
    ghost even: { table ≡ even_table rules.queues },
}

impl Placer {
    /// Takes memory for the groups of the rules and for the table of the key. There are no flows.
    pub fn make(alloc: Global, rules: Rules) -> Result<Placer, OutOfMemory>
        requires { RulesAreWithin rules }
        ensures rules { IfOk result (λ placer. placer.rules ≡ rules) }
        ensures empty { IfOk result (λ placer. placer.placed ≡ []) }
    {
        let classifier = Classifier::make(alloc, &rules)?;
        let key = TabledKey::make(alloc, &verification_key())?;
        let table = Reta::even(rules.queues);
        Ok(Placer {
            rules,
            classifier,
            key,
            table,
            placed: PlacedList::new(alloc),
        })
    }

    /// The flow of a frame, and how many levels were entered.
    fn flow_of(&self, frame: &[u8]) -> Inner
        ensures { result ≡ placed_flow self.now.rules frame.now }
    {
        if self.rules.inner {
            dissect_inner(frame)
        } else {
            Inner {
                flow: dissect(frame),
                depth: 0,
            }
        }
    }

    /// The hash of a flow.
    fn hash_of(&self, flow: &Flow) -> Option<u32>
        ensures { result ≡ hash_for self.now.rules flow.now }
    {
        let kinds = Kinds(self.rules.kinds);
        if self.rules.symmetric {
            self.key.hash(&fold(flow), kinds)
        } else {
            self.key.hash(flow, kinds)
        }
    }

    /// The queue of the rule with this number, or else that of the hash.
    fn queue_by(&self, found: Option<u32>, hash: Option<u32>) -> RxQueue
        ensures { result ≡ queue_by self.now.rules found hash }
    {
        match found {
            None => self.table.queue(hash),
            Some(number) => match self.rules.rules.as_slice().get(number as usize) {
                Some(rule) => rule.queue,
                None => RxQueue(0),
            },
        }
    }
}

/// Appends the number of the rule that matched to the line.
#[tactic(auto, unfolding(crate::specs::PlaceText::rule_text))]
fn push_rule(line: &mut LineBuf, found: Option<u32>)
    requires { length line.old ≤ 400 }
    ensures value { line.new ≡ line.old ++ rule_text found }
    ensures grows { length line.new ≤ length line.old + 26 }
{
    match found {
        None => line.push(b" rule -"),
        Some(number) => {
            line.push(b" rule ");
            line.push_decimal(u64::from(number));
        }
    }
}

impl FrameSink for Placer {
    ghost use Rattle.steer_top.specs.FrameLists.{TakesPlaced};

    ghost takes = { TakesPlaced };

    /// Appends the flow of a frame, and how many levels were entered.
    fn take(&mut self, frame: &[u8]) -> Result<(), OutOfMemory> {
        let placed = self.flow_of(frame);
        self.placed.push(placed)
    }
}

impl PacketLine for Placer {
    ghost count = { λ placer. length placer.placed };

    ghost text = { λ placer number.
        placed_line placer.rules number (get_or placer.placed number not_placed) };

    fn len(&self) -> usize {
        self.placed.len()
    }

    #[tactic(auto, unfolding(crate::specs::PlaceText::placed_line))]
    fn push_line(&self, line: &mut LineBuf, number: usize) {
        let Inner { flow, depth } = self.placed.get(number);
        let found = self.classifier.find(&flow);
        let hash = self.hash_of(&flow);
        let queue = self.queue_by(found, hash);
        push_packet(line, number as u64, &flow, hash, queue);
        push_rule(line, found);
        line.push(b" depth ");
        line.push_decimal(u64::from(depth));
        line.push(b"\n");
    }
}
