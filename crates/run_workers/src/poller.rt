//! The poller of a receive queue.
ghost use Rattle.std.specs.Prelude.{◌≡◌, ◌<◌, ◌≤◌, ◌+◌, ◌*◌, ◌==◌, None, Some, false, length};
ghost use Rattle.std.specs.Prelude.{[], IfOk, IfSome, IsSome, not, suc, ℕ};
ghost use Rattle.std.specs.Option.{is_some};
ghost use Rattle.steer_base.specs.Arrivals.{filter_place};
ghost use Rattle.steer_base.specs.Choices.{looks_at_head};
ghost use Rattle.steer_base.specs.Counters.{rounded_up};
ghost use Rattle.steer_base.specs.Journals.{grown, journal};
ghost use Rattle.steer_base.specs.Sets.{has};
ghost use Rattle.steer_base.specs.declared.limits.TheConstants.{MAX_FLOW_COUNT, MAX_PACKETS};
ghost use Rattle.steer_base.specs.declared.limits.TheConstants.{MAX_SOCKET_SIZE};
ghost use Rattle.plan_reader.specs.declared.limits.TheConstants.{MAX_PLAN_FILTERS};
ghost use Rattle.dev_flow_table.specs.Folds.{table_after};
ghost use Rattle.dev_flow_table.specs.Tables.{IsClassOf, cleared, entries};
ghost use Rattle.rtrb.specs.Ring.{SameConsumer};
ghost use Rattle.board_api.specs.Calls.Rights.{HasOpen, IsInside, IsOutside};
ghost use Rattle.board_api.specs.Seats.{Adds};
ghost use Rattle.steer_model.specs.Steps.Pollers.{filter_for as filter_after};
ghost use Rattle.run_words.specs.Numbers.{word_count};
ghost use Rattle.run_words.specs.Values.{flows_word as word_of};
ghost use Rattle.run_words.specs.declared.hint_word.TheConstants.{FILTER_WORDS};
ghost use Rattle.run_workers.specs.Hands.Pollers.{HasQueueSettings};
ghost use Rattle.run_workers.specs.Hands.Pollers.{Chooses, DoesNothing, EmptiesHand};
ghost use Rattle.run_workers.specs.Hands.Pollers.{FindsAnnounced, HasLanesBelow, IsPoller};
ghost use Rattle.run_workers.specs.Hands.Pollers.{KeepsReading, Reads, Rereads};
ghost use Rattle.run_workers.specs.Hands.Pollers.{LoadsHead, LoadsQueue, TakesNone};
ghost use Rattle.run_workers.specs.Hands.Pollers.{LooksUp};
ghost use Rattle.run_workers.specs.Hands.Pollers.{Polls};
ghost use Rattle.run_workers.specs.Hands.Pollers.{Puts, Steers, StoresFilter, Takes, read_steps};
ghost use Rattle.run_workers.specs.Hands.Pollers.{refreshed, socket_entry};

use crate::holding::hold;
use board_api::{Board, BoardSeat, EnterAnswer};
use dev_flow_table::DevTable;
use hint_words::HintSeat;
use rps_map::rps_choice;
use rtrb::Consumer;
use run_words::{
    HintWord, ReceiveSetting, STEERED, Shared, cpus_in, filter_word, flows_in, flows_word,
    place_in, socket_size_in,
};
use std::alloc::Global;
use std::sync::Wait;
use steer_base::{
    Choice, Chosen, CpuMask, Journal, OutOfMemory, PacketId, Put, RxQueue, place_of_hash, round_up,
};
use steer_model::{desired_cpu, filter_for};

/// The poller of a receive queue.
#[derive(Drop)]
pub struct Poller {
    /// The receive queue.
    pub queue: u8,
    /// The ring of the packets that arrived at the queue and were not taken yet, by number.
    pub ring: Consumer<u32, Global>,
    /// The packet that was taken and is not put yet.
    pub hand: Option<PacketId>,
    /// The word of the queue's flow count that was read last.
    pub flows: u64,
    /// The flow table of the queue.
    pub table: DevTable,
    /// The choices, in the order of the packets.
    pub choices: Journal<Chosen>,
    /// The number of packets that were accepted.
    pub accepted: u32,
    /// The settings that were read last, if any were.
    pub kept: Option<KeptReading>,
}

/// What a poller keeps of the settings that it read.
#[derive(Clone, Copy)]
pub struct KeptReading {
    /// The number of the visit in which they were read.
    pub visit: u32,
    /// The settings.
    pub reading: Reading,
}

/// The words of a queue's settings that were read in a visit.
#[derive(Clone, Copy)]
pub struct Reading {
    /// The processors that its packets may be steered to.
    pub mask: u64,
    /// The flow count with its generation.
    pub flows: u64,
    /// The size of the socket flow table.
    pub socket: u64,
    /// The processors that are online.
    pub online: u64,
}

// Whether the word of a packet says that it has arrived at a receive queue.
fn is_announced(shared: &Shared, seat: &mut HintSeat, id: PacketId) -> bool
    requires table { seat.old.table ≡ shared.now.hints.table }
    requires words { word_count (suc id) ≤ shared.now.hints.words }
    requires id { id < MAX_PACKETS }
    ensures loads { (word : ℕ) × LoadsQueue id word seat.old seat.new
        × (result ≡ not (word == 0)) }
{
    shared.hints.load(seat, HintWord::Queue(id).number()) != 0
}

// Looks up the processor that is wanted for a packet with this class and hash in the socket flow
// table of this size.
fn look(
    shared: &Shared,
    seat: &mut HintSeat,
    class: Option<u32>,
    hash: Option<u32>,
    size: u32,
) -> Option<u8>
    requires table { seat.old.table ≡ shared.now.hints.table }
    requires words { MAX_SOCKET_SIZE ≤ shared.now.hints.words }
    requires size { size ≤ MAX_SOCKET_SIZE }
    ensures looks { LooksUp shared.now.given.cpus (socket_entry size class hash) seat.old seat.new
        result }
    ensures within { IfSome result (λ cpu. cpu < shared.now.given.cpus) }
{
    if class.is_none() {
        return None;
    }
    let entry = place_of_hash(hash, size)?;
    let word = shared.hints.load(seat, HintWord::Socket(entry).number());
    place_in(word, shared.given.cpus())
}

// Reads the settings of a queue, of so many.
fn read_settings<B: Board>(board: &B, queue: u8, queues: u8, seat: &mut BoardSeat) -> Reading
    requires table { seat.old.table ≡ (B.view board.now).table }
    requires inside { IsInside seat.old.steps }
    requires queue { queue < queues }
    requires settings { length (B.view board.now).sizes.settings ≡ 2 * queues + 2 }
    ensures reads { Adds (read_steps queues queue result) seat.old seat.new }
{
    let queue = RxQueue(queue);
    Reading {
        mask: board.setting(seat, ReceiveSetting::Cpus(queue).number(queues)),
        flows: board.setting(seat, ReceiveSetting::Flows(queue).number(queues)),
        socket: board.setting(seat, ReceiveSetting::SocketSize.number(queues)),
        online: board.setting(seat, ReceiveSetting::Online.number(queues)),
    }
}

impl Poller {
    /// The poller of a receive queue, which has steered nothing yet, with room for `room` choices.
    /// `flows` is the queue's flow count, not rounded up; `start` is the number at which the lanes'
    /// counters start. Allocates the memory of the table and of the choices here, and none later.
    pub fn make(
        alloc: Global,
        queue: u8,
        ring: Consumer<u32, Global>,
        flows: u32,
        start: u32,
        room: u32,
    ) -> Result<Poller, OutOfMemory>
        requires flows { flows ≤ MAX_FLOW_COUNT }
        requires room { room ≤ MAX_PACKETS }
        ensures queue { IfOk result (λ p. p.queue ≡ queue) }
        ensures ring { IfOk result (λ p. p.ring ≡ ring) }
        ensures hand { IfOk result (λ p. p.hand ≡ None) }
        ensures flows { IfOk result (λ p. p.flows ≡ word_of (rounded_up flows) 0) }
        ensures table { IfOk result (λ p. p.table ≡ cleared (rounded_up flows) start false) }
        ensures choices { IfOk result (λ p. p.choices ≡ journal [] room) }
        ensures room { IfOk result (λ p. p.choices.room ≡ room) }
        ensures accepted { IfOk result (λ p. p.accepted ≡ 0) }
        ensures kept { IfOk result (λ p. p.kept ≡ None) }
        ensures is { IfOk result (λ p. (cpus : ℕ) → IsPoller cpus p) }
    {
        Ok(Poller {
            queue,
            ring,
            hand: None,
            flows: flows_word(round_up(flows), 0),
            table: DevTable::make(alloc, flows, start)?,
            choices: Journal::make(alloc, room)?,
            accepted: 0,
            kept: None,
        })
    }

    /// Takes the next packet from the ring if the hand is empty, and steers the packet in hand in
    /// one visit of the receive board. While the packet's queue is not announced in its word, or if
    /// the gate is closed, nothing is steered, and the packet stays in hand. Returns whether a
    /// number was taken or a packet steered.
    pub fn poll<R: Wait, B: Board>(
        &mut self,
        rt: &R,
        board: &B,
        shared: &Shared,
        seat: &mut BoardSeat,
        hint: &mut HintSeat,
    ) -> bool
        requires table { seat.old.table ≡ (B.view board.now).table }
        requires hint_table { hint.old.table ≡ shared.now.hints.table }
        requires words { word_count self.old.choices.room ≤ shared.now.hints.words }
        requires filters { shared.now.filters ≤ MAX_PLAN_FILTERS }
        requires outside { IsOutside seat.old.steps × HasOpen seat.old.steps }
        requires queue { self.old.queue < length shared.now.given.homes }
        requires settings { HasQueueSettings (B.view board.now).sizes shared.now.given }
        requires cpus { (B.view board.now).sizes.lanes ≡ shared.now.given.cpus }
        requires room { self.old.choices.room ≡ (B.view board.now).sizes.room }
        requires is { IsPoller shared.now.given.cpus self.old }
        requires kept { KeepsReading (length shared.now.given.homes) self.old seat.old.steps }
        ensures polls { Polls shared.now.given shared.now.filters self.old self.new
            seat.old seat.new hint.old hint.new }
        ensures idle { result ≡ false → DoesNothing self.old self.new }
        ensures is { IsPoller shared.now.given.cpus self.new }
        ensures kept { KeepsReading (length shared.now.given.homes) self.new seat.new.steps }
        ensures ring { SameConsumer self.old.ring self.new.ring }
        ensures outside { IsOutside seat.new.steps × HasOpen seat.new.steps }
    {
        let took = self.take();
        let Some(id) = self.announced(shared, hint) else {
            return took;
        };
        match board.enter(seat) {
            EnterAnswer::Ok => {
                self.steer(rt, board, shared, seat, hint, id);
                board.leave(seat);
                true
            }
            EnterAnswer::Closed { .. } => took,
        }
    }

    // The packet in hand, if its word says that it has arrived at a receive queue.
    fn announced(&self, shared: &Shared, seat: &mut HintSeat) -> Option<PacketId>
        requires table { seat.old.table ≡ shared.now.hints.table }
        requires words { word_count self.now.choices.room ≤ shared.now.hints.words }
        requires few { self.now.choices.room ≤ MAX_PACKETS }
        requires hand { IfSome self.now.hand (λ id. id < self.now.choices.room) }
        ensures { FindsAnnounced self.now.hand result seat.old seat.new }
    {
        let id = self.hand?;
        if is_announced(shared, seat, id) {
            Some(id)
        } else {
            None
        }
    }

    // Takes the next packet from the ring, if the hand is empty and there is room for a choice.
    // Returns whether it took a number. One that names no packet is passed over.
    fn take(&mut self) -> bool
        requires hand { IfSome self.old.hand (λ id. id < self.old.choices.room) }
        requires room { IfSome self.old.hand
            (λ id. length self.old.choices.items < self.old.choices.room) }
        ensures takes { Takes self.old self.new result }
        ensures none { result ≡ false → TakesNone self.old self.new }
        ensures hand { IfSome self.new.hand (λ id. id < self.new.choices.room) }
        ensures room { IfSome self.new.hand
            (λ id. length self.new.choices.items < self.new.choices.room) }
        ensures ring { SameConsumer self.old.ring self.new.ring }
        ensures same { self.new ≡ record self.old { hand = self.new.hand; ring = self.new.ring } }
    {
        if self.hand.is_some() {
            return false;
        }
        if self.choices.len() >= self.choices.room() {
            return false;
        }
        match self.ring.pop() {
            Ok(id) => {
                if id < self.choices.room() {
                    self.hand = Some(PacketId(id));
                }
                true
            }
            Err(_) => false,
        }
    }

    // The settings of the queue, of so many: those that are kept if they were read in a visit with
    // the same number, and otherwise they are read and kept. Clears the table if the flow count was
    // changed.
    fn read<B: Board>(&mut self, board: &B, queues: u8, seat: &mut BoardSeat) -> Reading
        requires table { seat.old.table ≡ (B.view board.now).table }
        requires inside { IsInside seat.old.steps }
        requires queue { self.old.queue < queues }
        requires settings { length (B.view board.now).sizes.settings ≡ 2 * queues + 2 }
        requires rounded { self.old.table.exact ≡ false }
        requires kept { KeepsReading queues self.old seat.old.steps }
        ensures reads { Reads queues self.old.queue result seat.old seat.new }
        ensures kept { KeepsReading queues self.new seat.new.steps }
        ensures same { self.new ≡ record self.old {
          flows = result.flows;
          table = refreshed self.old.flows result.flows self.old.table;
          kept = self.new.kept;
        } }
    {
        let visit = seat.visit_number();
        if let Some(reading) = self.known(visit) {
            self.refresh(reading.flows);
            return reading;
        }
        let reading = read_settings(board, self.queue, queues, seat);
        self.kept = Some(KeptReading { visit, reading });
        self.refresh(reading.flows);
        reading
    }

    // The settings that are kept, if they were read in a visit with this number.
    fn known(&self, visit: u32) -> Option<Reading>
        ensures { IfSome result
            (λ r. self.now.kept ≡ Some (record { visit = visit; reading = r })) }
    {
        let kept = self.kept?;
        if kept.visit == visit {
            Some(kept.reading)
        } else {
            None
        }
    }

    // Clears the table, unless this word of the flow count was read before.
    fn refresh(&mut self, flows: u64)
        requires rounded { self.old.table.exact ≡ false }
        ensures same { self.new ≡ record self.old {
          flows = flows;
          table = refreshed self.old.flows flows self.old.table;
        } }
    {
        if self.flows == flows {
            return;
        }
        self.flows = flows;
        self.table.resize(flows_in(flows));
    }

    // Loads the head of the current lane of a class, if the rule looks at it.
    fn head<B: Board>(
        &self,
        board: &B,
        seat: &mut BoardSeat,
        class: Option<u32>,
        desired: u8,
        online: CpuMask,
    ) -> Option<u32>
        requires table { seat.old.table ≡ (B.view board.now).table }
        requires inside { IsInside seat.old.steps }
        requires class { IsClassOf self.now.table class }
        requires lanes { HasLanesBelow (B.view board.now).sizes.lanes self.now.table }
        ensures looks { is_some result
            ≡ looks_at_head class (entries self.now.table) desired (has online) }
        ensures loads { LoadsHead self.now.table class seat.old seat.new result }
    {
        let class = class?;
        let lane = self.table.current(class)?;
        if lane != desired && online.has(lane) {
            Some(board.weigh(seat, lane))
        } else {
            None
        }
    }

    // Chooses a processor for a packet, in a visit, and records the choice in the table.
    fn choose<B: Board>(
        &mut self,
        board: &B,
        shared: &Shared,
        seat: &mut BoardSeat,
        hint: &mut HintSeat,
        id: PacketId,
    ) -> Choice
        requires table { seat.old.table ≡ (B.view board.now).table }
        requires hint_table { hint.old.table ≡ shared.now.hints.table }
        requires words { MAX_SOCKET_SIZE ≤ shared.now.hints.words }
        requires inside { IsInside seat.old.steps }
        requires queue { self.old.queue < length shared.now.given.homes }
        requires settings { HasQueueSettings (B.view board.now).sizes shared.now.given }
        requires cpus { (B.view board.now).sizes.lanes ≡ shared.now.given.cpus }
        requires rounded { self.old.table.exact ≡ false }
        requires lanes { HasLanesBelow shared.now.given.cpus self.old.table }
        requires kept { KeepsReading (length shared.now.given.homes) self.old seat.old.steps }
        ensures chooses { Chooses shared.now.given self.old.queue id self.old.flows self.new.flows
            self.old.table self.new.table result seat.old seat.new hint.old hint.new }
        ensures lane { result.lane < shared.now.given.cpus }
        ensures lanes { HasLanesBelow shared.now.given.cpus self.new.table }
        ensures class { IsClassOf self.new.table result.class }
        ensures set { IfSome result.class (λ class. IsSome (entries self.new.table class).lane) }
        ensures rounded { self.new.table.exact ≡ false }
        ensures reads { Rereads (length shared.now.given.homes) self.old self.new seat.new.steps }
    {
        let reading = self.read(board, shared.given.queues(), seat);
        let cpus = shared.given.cpus();
        let online = cpus_in(reading.online, cpus);
        let hash = shared.given.hash_of(id);
        let class = self.table.class(hash);
        let want = look(shared, hint, class, hash, socket_size_in(reading.socket));
        let home = shared.given.home(self.queue);
        let plain = rps_choice(cpus_in(reading.mask, cpus), hash, online, home);
        let desired = desired_cpu(class, want, online, plain.0);
        let head = self.head(board, seat, class, desired, online);
        shared.given.ranges();
        self.table.weigh(class, want, desired, head, online)
    }

    // Puts a packet to the lane of its choice, in a visit.
    fn put<R: Wait, B: Board>(
        &mut self,
        rt: &R,
        board: &B,
        shared: &Shared,
        seat: &mut BoardSeat,
        hint: &mut HintSeat,
        packet: Chosen,
    ) -> Put
        requires table { seat.old.table ≡ (B.view board.now).table }
        requires hint_table { hint.old.table ≡ shared.now.hints.table }
        requires words { FILTER_WORDS + shared.now.filters ≤ shared.now.hints.words }
        requires filters { shared.now.filters ≤ MAX_PLAN_FILTERS }
        requires inside { IsInside seat.old.steps }
        requires lane { packet.choice.lane < (B.view board.now).sizes.lanes }
        requires id { packet.id < (B.view board.now).sizes.room }
        requires count { self.old.accepted < 4294967295 }
        requires class { IsClassOf self.old.table packet.choice.class }
        requires set { IfSome packet.choice.class
            (λ class. IsSome (entries self.old.table class).lane) }
        ensures puts { Puts shared.now.given shared.now.filters packet.id packet.choice result
            self.old.table self.new.table self.old.accepted self.new.accepted seat.old seat.new
            hint.old hint.new }
        ensures same { self.new
            ≡ record self.old { table = self.new.table; accepted = self.new.accepted } }
    {
        let hash = shared.given.hash_of(packet.id);
        let held = hold(rt, board, seat, packet.choice.lane);
        let answer = board.put(seat, held, packet.id, hash);
        if let Put::At(position) = answer {
            self.note(packet.choice, position);
            ask(shared, hint, hash, packet.choice, position);
        }
        answer
    }

    // Steers a packet, in a visit: chooses its processor, marks the packet as steered, puts it
    // there, and notes the choice.
    fn steer<R: Wait, B: Board>(
        &mut self,
        rt: &R,
        board: &B,
        shared: &Shared,
        seat: &mut BoardSeat,
        hint: &mut HintSeat,
        id: PacketId,
    ) -> Choice
        requires table { seat.old.table ≡ (B.view board.now).table }
        requires hint_table { hint.old.table ≡ shared.now.hints.table }
        requires words { word_count (B.view board.now).sizes.room ≤ shared.now.hints.words }
        requires filters { shared.now.filters ≤ MAX_PLAN_FILTERS }
        requires inside { IsInside seat.old.steps }
        requires queue { self.old.queue < length shared.now.given.homes }
        requires settings { HasQueueSettings (B.view board.now).sizes shared.now.given }
        requires cpus { (B.view board.now).sizes.lanes ≡ shared.now.given.cpus }
        requires id { id < (B.view board.now).sizes.room }
        requires few { (B.view board.now).sizes.room ≤ MAX_PACKETS }
        requires is { IsPoller shared.now.given.cpus self.old }
        requires room { length self.old.choices.items < self.old.choices.room }
        requires kept { KeepsReading (length shared.now.given.homes) self.old seat.old.steps }
        ensures steers { Steers shared.now.given shared.now.filters self.old.queue self.old.flows
            self.new.flows self.old.table self.new.table self.old.accepted self.new.accepted
            (record { id = id; choice = result }) seat.old seat.new hint.old hint.new }
        ensures is { IsPoller shared.now.given.cpus self.new }
        ensures choices { self.new.choices
            ≡ grown self.old.choices (record { id = id; choice = result }) }
        ensures kept { KeepsReading (length shared.now.given.homes) self.new seat.new.steps }
        ensures same { EmptiesHand self.old self.new }
    {
        let choice = self.choose(board, shared, seat, hint, id);
        let mark = HintWord::Steered(id).number();
        shared.hints.store(hint, mark, STEERED);
        self.put(rt, board, shared, seat, hint, Chosen { id, choice });
        self.choices.push(Chosen { id, choice });
        self.hand = None;
        choice
    }

    // Records that the packet of a choice was accepted at a position.
    fn note(&mut self, choice: Choice, position: u32)
        requires count { self.old.accepted < 4294967295 }
        requires class { IsClassOf self.old.table choice.class }
        requires set { IfSome choice.class (λ class. IsSome (entries self.old.table class).lane) }
        ensures same { self.new ≡ record self.old {
          table = table_after self.old.table choice.class (Some (Put.At position));
          accepted = self.old.accepted + 1;
        } }
    {
        self.accepted += 1;
        if let Some(class) = choice.class {
            self.table.accepted(class, position);
        }
    }
}

// Stores the filter that a choice asks for after its packet was accepted at a position.
fn ask(shared: &Shared, seat: &mut HintSeat, hash: Option<u32>, choice: Choice, position: u32)
    requires table { seat.old.table ≡ shared.now.hints.table }
    requires words { FILTER_WORDS + shared.now.filters ≤ shared.now.hints.words }
    requires filters { shared.now.filters ≤ MAX_PLAN_FILTERS }
    ensures { StoresFilter (filter_place shared.now.filters hash)
        (filter_after shared.now.given.homes shared.now.filters choice position) seat.old seat.new }
{
    let place = place_of_hash(hash, shared.filters);
    let filter = filter_for(shared.given.homes(), shared.filters, choice, position);
    if let (Some(place), Some(filter)) = (place, filter) {
        shared.hints.store(seat, HintWord::Filter(place).number(), filter_word(filter));
    }
}
