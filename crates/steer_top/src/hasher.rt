//! What the command `hash` works out of the frames of a capture.
ghost use Rattle.std.specs.Prelude.{◌≡◌, ◌≤◌, [], length, get_or, IfOk};
ghost use Rattle.rss_table.specs.Redirection.{even_table};
ghost use Rattle.steer_base.specs.declared.flow.Flow.TheVariants.{Bare};
ghost use Rattle.steer_top.specs.HashText.{flow_line};
ghost use Rattle.toeplitz.specs.Toeplitz.{verification_key};

use crate::flow_list::FlowList;
use crate::hash_line::push_packet;
use crate::writing::PacketLine;
use flow_dissector::dissect;
use pcap_reader::FrameSink;
use report::LineBuf;
use rss_table::Reta;
use std::alloc::Global;
use steer_base::OutOfMemory;
use toeplitz::{Kinds, TabledKey, verification_key};

/// The verification key, the redirection table and the hash kinds, and the flows of the frames that
/// were taken.
#[derive(Drop)]
pub struct Hasher {
    key: TabledKey,
    table: Reta,
    kinds: Kinds,
    flows: FlowList,
    ghost verified: { key ≡ verification_key },
}

impl Hasher {
    /// The even table over so many queues, with these kinds, and no flows.
    pub fn make(alloc: Global, queues: u8, kinds: u8) -> Result<Hasher, OutOfMemory>
        requires some { 1 ≤ queues }
        requires few { queues ≤ 16 }
        ensures table { IfOk result (λ hasher. hasher.table ≡ even_table queues) }
        ensures kinds { IfOk result (λ hasher. hasher.kinds.0 ≡ kinds) }
        ensures empty { IfOk result (λ hasher. hasher.flows ≡ []) }
    {
        let key = TabledKey::make(alloc, &verification_key())?;
        Ok(Hasher {
            key,
            table: Reta::even(queues),
            kinds: Kinds(kinds),
            flows: FlowList::new(alloc),
        })
    }
}

impl FrameSink for Hasher {
    ghost use Rattle.steer_top.specs.FrameLists.{TakesFlows};

    ghost takes = { TakesFlows };

    /// Appends the flow of a frame.
    fn take(&mut self, frame: &[u8]) -> Result<(), OutOfMemory> {
        self.flows.push(dissect(frame))
    }
}

impl PacketLine for Hasher {
    ghost count = { λ hasher. length hasher.flows };

    ghost text = { λ hasher number.
        flow_line hasher.kinds.0 hasher.table number (get_or hasher.flows number Bare) };

    fn len(&self) -> usize {
        self.flows.len()
    }

    #[tactic(auto, unfolding(crate::specs::HashText::flow_line))]
    fn push_line(&self, line: &mut LineBuf, number: usize) {
        let flow = self.flows.get(number);
        let hash = self.key.hash(&flow, self.kinds);
        push_packet(line, number as u64, &flow, hash, self.table.queue(hash));
        line.push(b"\n");
    }
}
