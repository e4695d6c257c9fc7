//! An application, which takes the packets of its inbox, records its flows and replies.
ghost use Rattle.std.specs.Prelude.{◌≡◌, ◌<◌, ◌≤◌, ◌+◌, ◌*◌, ◌==◌, None, Some, length, IfSome};
ghost use Rattle.std.specs.Prelude.{IfOk, IsSome, [], not, suc, true, ℕ};
ghost use Rattle.std.specs.Option.{is_some};
ghost use Rattle.steer_base.specs.Choices.{class_of, looks_at_head};
ghost use Rattle.steer_base.specs.Journals.{grown, journal};
ghost use Rattle.steer_base.specs.declared.limits.TheConstants.{MAX_PACKETS, MAX_SOCKET_SIZE};
ghost use Rattle.dev_flow_table.specs.Folds.{table_after};
ghost use Rattle.dev_flow_table.specs.Tables.{IsClassOf, cleared, entries};
ghost use Rattle.dev_flow_table.specs.declared.table.TheConstants.{MAX_EXACT_CLASSES};
ghost use Rattle.board_api.specs.Calls.Rights.{HasOpen, IsInside, IsOutside};
ghost use Rattle.steer_model.specs.State.Setup.{Setup, packet_hash};
ghost use Rattle.run_words.specs.Numbers.{word_count};
ghost use Rattle.run_words.specs.declared.hint_word.TheConstants.{PACKET_WORDS};
ghost use Rattle.run_workers.specs.Hands.Pollers.{HasLanesBelow, HasQueueSettings, LoadsHead};
ghost use Rattle.run_workers.specs.Hands.Servers.{ChoosesLane, HasFlowsBelow, HasReplied};
ghost use Rattle.run_workers.specs.Hands.Servers.{HasTransmitSettings};
ghost use Rattle.run_workers.specs.Hands.Servers.{IsServer, KeepsMaps, LoadsMark, LooksInVain};
ghost use Rattle.run_workers.specs.Hands.Servers.{MapsRead};
ghost use Rattle.run_workers.specs.Hands.Servers.{Notes, Peeks, PutsReply};
ghost use Rattle.run_workers.specs.Hands.Servers.{Queued};
ghost use Rattle.run_workers.specs.Hands.Servers.{ReadsMap, RepliesOrKeeps, Sends, Stands};
ghost use Rattle.run_workers.specs.Hands.Servers.{TakesOrLeaves};
ghost use Rattle.run_workers.specs.Hands.Servers.{Writes};
ghost use Rattle.run_workers.specs.Hands.Servers as servers;

use crate::holding::hold;
use crate::kept_maps::KeptMaps;
use board_api::{Board, BoardSeat, EnterAnswer, Hold, LaneId};
use dev_flow_table::DevTable;
use hint_words::HintSeat;
use history::{Arrival, Sent, SockWrite};
use run_words::{
    HintWord, ReceiveSetting, Shared, TransmitSetting, place_in, place_word, socket_size_in,
};
use std::alloc::Global;
use std::sync::Wait;
use steer_base::{
    AppId, Choice, Chosen, Cpu, CpuMask, Journal, OutOfMemory, PacketId, Put, RxQueue, TxQueue,
    number_at, place_of_hash,
};

/// An application.
#[derive(Drop)]
pub struct Server {
    /// The application, below 32.
    pub app: u8,
    /// The processor on which the plan has it run, where no word says otherwise.
    pub home: Cpu,
    /// The number at which the counters of the out lanes start.
    pub start: u32,
    /// The packet that was taken and recorded, and is not replied to yet.
    pub hand: Option<PacketId>,
    /// The flow table of the application, a class for each flow.
    pub table: DevTable,
    /// The replies, in the order of the packets in the inbox.
    pub sent: Journal<Sent>,
    /// The choices of their transmit queues, in the same order.
    pub choices: Journal<Chosen>,
    /// The writes to the socket flow table.
    pub writes: Journal<SockWrite>,
    /// The maps of the transmit queues as they were read last, with the number of the visits in
    /// which they were read. Before the first reply they are of one queue and of no visit.
    pub kept: KeptMaps,
}

// The processor on which an application runs: that of its word, or its home.
fn stand(shared: &Shared, seat: &mut HintSeat, app: u8, home: Cpu) -> Cpu
    requires table { seat.old.table ≡ shared.now.hints.table }
    requires words { PACKET_WORDS ≤ shared.now.hints.words }
    requires app { app < 32 }
    ensures { Stands shared.now.given.cpus app home seat.old seat.new result }
{
    let word = shared
        .hints
        .load(seat, HintWord::Stand(AppId(app)).number());
    Cpu(place_in(word, shared.given.cpus()).unwrap_or(home.0))
}

impl Server {
    /// An application of a run, which has taken nothing yet, with room for `room` packets whose
    /// flows have numbers below `flows`. `start` is the number at which the counters start.
    /// Allocates the memory of the table and of the journals here, and none later.
    pub fn make(
        alloc: Global,
        app: u8,
        home: Cpu,
        start: u32,
        flows: u32,
        room: u32,
    ) -> Result<Server, OutOfMemory>
        requires app { app < 32 }
        requires flows { flows ≤ MAX_EXACT_CLASSES }
        requires room { room ≤ MAX_PACKETS }
        ensures app { IfOk result (λ s. s.app ≡ app) }
        ensures home { IfOk result (λ s. s.home ≡ home) }
        ensures start { IfOk result (λ s. s.start ≡ start) }
        ensures hand { IfOk result (λ s. s.hand ≡ None) }
        ensures table { IfOk result (λ s. s.table ≡ cleared flows start true) }
        ensures sent { IfOk result (λ s. s.sent ≡ journal [] room) }
        ensures choices { IfOk result (λ s. s.choices ≡ journal [] room) }
        ensures writes { IfOk result (λ s. s.writes ≡ journal [] room) }
        ensures kept { IfOk result (λ s. s.kept.visit ≡ None) }
        ensures is { IfOk result (λ s. (given : Setup) → HasFlowsBelow given room flows
            → IsServer given s) }
    {
        Ok(Server {
            app,
            home,
            start,
            hand: None,
            table: DevTable::make_exact(alloc, flows, start)?,
            sent: Journal::make(alloc, room)?,
            choices: Journal::make(alloc, room)?,
            writes: Journal::make(alloc, room)?,
            kept: KeptMaps::make(1, 1, 1),
        })
    }

    /// Takes the next packet of the inbox, if the hand is empty, and records its flow in one visit
    /// of the receive board: the application's processor, in the entry of the packet's hash. At a
    /// closed gate, while another seat holds the inbox, or while the packet is not marked as
    /// steered, it is left there. Returns whether a packet was taken.
    pub fn take<B: Board>(
        &mut self,
        board: &B,
        shared: &Shared,
        seat: &mut BoardSeat,
        hint: &mut HintSeat,
    ) -> bool
        requires table { seat.old.table ≡ (B.view board.now).table }
        requires hint_table { hint.old.table ≡ shared.now.hints.table }
        requires words { word_count self.old.sent.room ≤ shared.now.hints.words }
        requires outside { IsOutside seat.old.steps }
        requires open { HasOpen seat.old.steps }
        requires app { self.old.app < (B.view board.now).sizes.outs }
        requires settings { HasQueueSettings (B.view board.now).sizes shared.now.given }
        requires room { self.old.sent.room ≡ (B.view board.now).sizes.room }
        requires is { IsServer shared.now.given self.old }
        ensures takes { TakesOrLeaves (B.view board.now).sizes shared.now.given self.old self.new
            seat.old seat.new hint.old hint.new result }
        ensures is { IsServer shared.now.given self.new }
        ensures outside { IsOutside seat.new.steps }
        ensures open { HasOpen seat.new.steps }
    {
        if self.hand.is_some() || self.sent.len() >= self.sent.room() {
            return false;
        }
        let Some(id) = self.peek(board, seat) else {
            return false;
        };
        if !is_steered(shared, hint, id) {
            return false;
        }
        match board.enter(seat) {
            EnterAnswer::Ok => {
                self.record(board, shared, seat, hint, id);
                board.leave(seat);
                true
            }
            EnterAnswer::Closed { .. } => false,
        }
    }

    /// Replies to the packet in hand, in one visit of the transmit board. The pick of the maps is
    /// the transmit queue that its flow is to have. The packet's receive queue is by its word, or
    /// else by `late`: the arrivals in the order of the packets once all have arrived, and none
    /// before. At a closed gate, or while the queue is not known, the packet stays in hand. Returns
    /// whether a reply was made.
    pub fn reply<R: Wait, B: Board>(
        &mut self,
        rt: &R,
        board: &B,
        shared: &Shared,
        late: &[Arrival],
        seat: &mut BoardSeat,
        hint: &mut HintSeat,
    ) -> bool
        requires table { seat.old.table ≡ (B.view board.now).table }
        requires hint_table { hint.old.table ≡ shared.now.hints.table }
        requires words { word_count self.old.sent.room ≤ shared.now.hints.words }
        requires outside { IsOutside seat.old.steps × HasOpen seat.old.steps }
        requires settings { HasTransmitSettings (B.view board.now).sizes shared.now.given }
        requires room { self.old.sent.room ≡ (B.view board.now).sizes.room }
        requires is { IsServer shared.now.given self.old }
        requires kept { KeepsMaps shared.now.given self.old.kept seat.old.steps }
        ensures replies { RepliesOrKeeps shared.now.given late.now self.old self.new
            seat.old seat.new hint.old hint.new result }
        ensures is { IsServer shared.now.given self.new }
        ensures kept { KeepsMaps shared.now.given self.new.kept seat.new.steps }
        ensures outside { IsOutside seat.new.steps × HasOpen seat.new.steps }
    {
        let Some(id) = self.hand else {
            return false;
        };
        let Some(rxq) = queue_of(shared, hint, late, id) else {
            return false;
        };
        match board.enter(seat) {
            EnterAnswer::Ok => {
                let cpu = stand(shared, hint, self.app, self.home);
                self.send(rt, board, shared, seat, Sent { id, rxq, cpu });
                board.leave(seat);
                true
            }
            EnterAnswer::Closed { .. } => false,
        }
    }

    // The next packet of the inbox, if there is one and no other seat holds the inbox. By one look
    // at its tail the seat sees whether one waits, before it takes the inbox.
    fn peek<B: Board>(&self, board: &B, seat: &mut BoardSeat) -> Option<PacketId>
        requires table { seat.old.table ≡ (B.view board.now).table }
        requires app { self.now.app < (B.view board.now).sizes.outs }
        ensures peeks { Peeks (B.view board.now).sizes self.now.app (length self.now.sent.items)
            result seat.old seat.new }
        ensures none { result ≡ None → LooksInVain (B.view board.now).sizes self.now.app
            self.now.start (length self.now.sent.items) seat.old seat.new }
    {
        let inbox = LaneId::Out(self.app);
        let taken = self.sent.len();
        if board.tail(seat, inbox) == number_at(self.start, taken) {
            return None;
        }
        match board.try_hold(seat, inbox) {
            Hold::Ok(held) => board.read_out(seat, held, taken),
            Hold::Held { .. } => None,
        }
    }

    // Records the flow of a packet, in a visit, and takes it in hand.
    fn record<B: Board>(
        &mut self,
        board: &B,
        shared: &Shared,
        seat: &mut BoardSeat,
        hint: &mut HintSeat,
        id: PacketId,
    )
        requires table { seat.old.table ≡ (B.view board.now).table }
        requires hint_table { hint.old.table ≡ shared.now.hints.table }
        requires words { PACKET_WORDS ≤ shared.now.hints.words }
        requires inside { IsInside seat.old.steps }
        requires settings { HasQueueSettings (B.view board.now).sizes shared.now.given }
        requires app { self.old.app < 32 }
        requires room { length self.old.writes.items < self.old.writes.room }
        ensures notes { Notes shared.now.given id self.old.app self.old.home self.old.writes
            self.new.writes seat.old seat.new hint.old hint.new }
        ensures same { self.new
            ≡ record self.old { hand = Some id; writes = self.new.writes } }
    {
        let number = ReceiveSetting::SocketSize.number(shared.given.queues());
        let size = socket_size_in(board.setting(seat, number));
        let entry = place_of_hash(shared.given.hash_of(id), size);
        self.write(shared, hint, entry);
        self.hand = Some(id);
    }

    // Writes the application's processor to an entry of the socket flow table, if there is one.
    fn write(&mut self, shared: &Shared, seat: &mut HintSeat, entry: Option<u32>)
        requires table { seat.old.table ≡ shared.now.hints.table }
        requires words { PACKET_WORDS ≤ shared.now.hints.words }
        requires entry { IfSome entry (λ e. e < MAX_SOCKET_SIZE) }
        requires app { self.old.app < 32 }
        requires room { length self.old.writes.items < self.old.writes.room }
        ensures writes { Writes shared.now.given.cpus self.old.app self.old.home entry
            self.old.writes self.new.writes seat.old seat.new }
        ensures same { self.new ≡ record self.old { writes = self.new.writes } }
    {
        let Some(entry) = entry else {
            return;
        };
        let cpu = stand(shared, seat, self.app, self.home);
        shared
            .hints
            .store(seat, HintWord::Socket(entry).number(), place_word(cpu.0));
        self.writes.push(SockWrite { entry, cpu });
    }

    // Loads the head of the current lane of a class, if the rule looks at it.
    fn head<B: Board>(&self, board: &B, seat: &mut BoardSeat, class: u32, pick: u8) -> Option<u32>
        requires table { seat.old.table ≡ (B.view board.now).table }
        requires inside { IsInside seat.old.steps }
        requires class { class < length self.now.table.rows }
        requires lanes { HasLanesBelow (B.view board.now).sizes.lanes self.now.table }
        ensures looks { is_some result
            ≡ looks_at_head (Some class) (entries self.now.table) pick (λ _. true) }
        ensures loads { LoadsHead self.now.table (Some class) seat.old seat.new result }
    {
        let lane = self.table.current(class)?;
        if lane != pick {
            Some(board.weigh(seat, lane))
        } else {
            None
        }
    }

    // Chooses the lane of a packet of a class, in a visit, among so many, and records the choice in
    // the table.
    fn choose<B: Board>(
        &mut self,
        board: &B,
        seat: &mut BoardSeat,
        class: u32,
        pick: u8,
        lanes: u8,
    ) -> Choice
        requires table { seat.old.table ≡ (B.view board.now).table }
        requires inside { IsInside seat.old.steps }
        requires class { class < length self.old.table.rows }
        requires pick { pick < lanes }
        requires few { lanes ≤ 32 }
        requires board { (B.view board.now).sizes.lanes ≡ lanes }
        requires lanes { HasLanesBelow lanes self.old.table }
        ensures chooses { ChoosesLane class pick self.old.table self.new.table result
            seat.old seat.new }
        ensures lane { result.lane < lanes }
        ensures lanes { HasLanesBelow lanes self.new.table }
        ensures class { IsClassOf self.new.table result.class }
        ensures set { IfSome result.class (λ k. IsSome (entries self.new.table k).lane) }
        ensures rows { length self.new.table.rows ≡ length self.old.table.rows }
        ensures same { self.new ≡ record self.old { table = self.new.table } }
    {
        let head = self.head(board, seat, class, pick);
        let all = CpuMask::first_n(lanes);
        self.table.weigh(Some(class), Some(pick), pick, head, all)
    }

    // Puts a packet to the lane of its choice, in a visit, and tells the table of the answer.
    fn put<R: Wait, B: Board>(
        &mut self,
        rt: &R,
        board: &B,
        shared: &Shared,
        seat: &mut BoardSeat,
        packet: Chosen,
    ) -> Put
        requires table { seat.old.table ≡ (B.view board.now).table }
        requires inside { IsInside seat.old.steps }
        requires lane { packet.choice.lane < (B.view board.now).sizes.lanes }
        requires id { packet.id < (B.view board.now).sizes.room }
        requires class { IsClassOf self.old.table packet.choice.class }
        requires set { IfSome packet.choice.class
            (λ class. IsSome (entries self.old.table class).lane) }
        ensures puts { PutsReply shared.now.given packet.id packet.choice result
            self.old.table self.new.table seat.old seat.new }
        ensures same { self.new ≡ record self.old { table = self.new.table } }
    {
        let hash = shared.given.hash_of(packet.id);
        let held = hold(rt, board, seat, packet.choice.lane);
        let answer = board.put(seat, held, packet.id, hash);
        if let Put::At(position) = answer {
            self.note(packet.choice, position);
        }
        answer
    }

    // Tells the table that the packet of a choice was accepted at a position.
    fn note(&mut self, choice: Choice, position: u32)
        requires class { IsClassOf self.old.table choice.class }
        requires set { IfSome choice.class (λ class. IsSome (entries self.old.table class).lane) }
        ensures same { self.new ≡ record self.old {
          table = table_after self.old.table choice.class (Some (Put.At position));
        } }
    {
        if let Some(class) = choice.class {
            self.table.accepted(class, position);
        }
    }

    // Replies, in a visit, and notes the reply and the choice.
    fn send<R: Wait, B: Board>(
        &mut self,
        rt: &R,
        board: &B,
        shared: &Shared,
        seat: &mut BoardSeat,
        sent: Sent,
    ) -> Choice
        requires table { seat.old.table ≡ (B.view board.now).table }
        requires inside { IsInside seat.old.steps }
        requires settings { HasTransmitSettings (B.view board.now).sizes shared.now.given }
        requires room { self.old.sent.room ≡ (B.view board.now).sizes.room }
        requires hand { self.old.hand ≡ Some sent.id }
        requires is { IsServer shared.now.given self.old }
        requires kept { KeepsMaps shared.now.given self.old.kept seat.old.steps }
        ensures sends { Sends shared.now.given sent result self.old.table self.new.table
            seat.old seat.new }
        ensures is { IsServer shared.now.given self.new }
        ensures kept { KeepsMaps shared.now.given self.new.kept seat.new.steps }
        ensures notes_sent { self.new.sent ≡ grown self.old.sent sent }
        ensures notes_choice { self.new.choices
            ≡ grown self.old.choices (record { id = sent.id; choice = result }) }
        ensures same { HasReplied self.old self.new }
    {
        let Sent { id, rxq, cpu } = sent;
        know_maps(board, shared, seat, &mut self.kept);
        let pick = self.kept.pick(rxq, cpu, shared.given.hash_of(id));
        let class = shared.given.flow_of(id);
        let choice = self.choose(board, seat, class, pick.0, shared.given.txs());
        self.put(rt, board, shared, seat, Chosen { id, choice });
        self.sent.push(sent);
        self.choices.push(Chosen { id, choice });
        self.hand = None;
        choice
    }
}

// Whether the word of a packet says that its poller has steered it.
fn is_steered(shared: &Shared, seat: &mut HintSeat, id: PacketId) -> bool
    requires table { seat.old.table ≡ shared.now.hints.table }
    requires words { word_count (suc id) ≤ shared.now.hints.words }
    requires id { id < MAX_PACKETS }
    ensures loads { (word : ℕ) × LoadsMark id word seat.old seat.new
        × (result ≡ not (word == 0)) }
{
    shared.hints.load(seat, HintWord::Steered(id).number()) != 0
}

// The receive queue of a packet: by its word, or else by the arrivals.
fn queue_of(shared: &Shared, seat: &mut HintSeat, late: &[Arrival], id: PacketId) -> Option<RxQueue>
    requires table { seat.old.table ≡ shared.now.hints.table }
    requires words { word_count (suc id) ≤ shared.now.hints.words }
    requires id { id < MAX_PACKETS }
    ensures { Queued (length shared.now.given.homes) id late.now seat.old seat.new result }
{
    let word = shared.hints.load(seat, HintWord::Queue(id).number());
    match place_in(word, shared.given.queues()) {
        Some(queue) => Some(RxQueue(queue)),
        None => late_queue(late, id),
    }
}

// The receive queue of a packet by the arrivals, which are in the order of the packets.
fn late_queue(late: &[Arrival], id: PacketId) -> Option<RxQueue>
    ensures { result ≡ servers.late_queue late.now id }
{
    let arrival = late.get(id.0 as usize)?;
    if arrival.id == id {
        Some(arrival.queue)
    } else {
        None
    }
}

// Sees to it, in a visit, that the maps are those of the visit: reads those of all transmit queues,
// unless they were read in a visit of the same number.
fn know_maps<B: Board>(board: &B, shared: &Shared, seat: &mut BoardSeat, kept: &mut KeptMaps)
    requires table { seat.old.table ≡ (B.view board.now).table }
    requires inside { IsInside seat.old.steps }
    requires settings { HasTransmitSettings (B.view board.now).sizes shared.now.given }
    requires kept { KeepsMaps shared.now.given kept.old seat.old.steps }
    ensures reads { MapsRead shared.now.given shared.now.given.txs kept.new.maps
        seat.old seat.new }
    ensures kept { KeepsMaps shared.now.given kept.new seat.new.steps }
{
    let number = seat.visit_number();
    if kept.is_of(number) {
        return;
    }
    read_maps(board, shared, seat, kept);
    kept.know(number);
}

// Reads the maps of all transmit queues, in a visit.
fn read_maps<B: Board>(board: &B, shared: &Shared, seat: &mut BoardSeat, kept: &mut KeptMaps)
    requires table { seat.old.table ≡ (B.view board.now).table }
    requires inside { IsInside seat.old.steps }
    requires settings { HasTransmitSettings (B.view board.now).sizes shared.now.given }
    ensures { MapsRead shared.now.given shared.now.given.txs kept.new.maps seat.old seat.new }
{
    shared.given.ranges();
    let count = shared.given.txs();
    kept.fit(shared.given.cpus(), shared.given.queues(), count);
    for tx in 0..count {
        read_map(board, shared, seat, kept, TxQueue(tx));
    }
}

// Reads the maps of a transmit queue, in a visit.
fn read_map<B: Board>(
    board: &B,
    shared: &Shared,
    seat: &mut BoardSeat,
    kept: &mut KeptMaps,
    tx: TxQueue,
)
    requires table { seat.old.table ≡ (B.view board.now).table }
    requires inside { IsInside seat.old.steps }
    requires settings { HasTransmitSettings (B.view board.now).sizes shared.now.given }
    requires cpus { kept.old.cpus ≡ shared.now.given.cpus }
    requires queues { kept.old.queues ≡ length shared.now.given.homes }
    requires count { kept.old.maps.count ≡ shared.now.given.txs }
    requires tx { tx < shared.now.given.txs }
    ensures reads { ReadsMap shared.now.given tx kept.old.maps kept.new.maps seat.old seat.new }
    ensures cpus { kept.new.cpus ≡ kept.old.cpus }
    ensures queues { kept.new.queues ≡ kept.old.queues }
{
    let count = shared.given.txs();
    let cpus = board.setting(seat, TransmitSetting::Cpus(tx).number(count));
    let queues = board.setting(seat, TransmitSetting::Queues(tx).number(count));
    kept.keep(tx, cpus, queues);
}
