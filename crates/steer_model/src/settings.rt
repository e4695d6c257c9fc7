//! The settings in force.
ghost use Rattle.std.specs.Prelude.{◌≡◌, ◌<◌, ◌≤◌, IfOk, length, map, slice_index, slice_set, true};
ghost use Rattle.std.specs.List.{All};
ghost use Rattle.rss_table.specs.Redirection.{is_in_range, queue_of, with_entry};
ghost use Rattle.steer_base.specs.Counters.{rounded_up};
ghost use Rattle.steer_base.specs.Sets.{with_cpu, without_cpu};
ghost use Rattle.steer_base.specs.declared.limits.TheConstants.{MAX_FLOW_COUNT, MAX_SOCKET_SIZE};
ghost use Rattle.steer_model.specs.State.Settings.{changed, class_at, IsInRange};
ghost use Rattle.steer_model.specs.State.Settings.{plain_lane as plain_cpu};
ghost use Rattle.steer_model.specs.State.Start.{maps_of as maps_of_plan, initial_settings};
ghost use Rattle.xps_map.specs.Maps.{picked};

use crate::setup::Given;
use plan_reader::{Plan, QueuePlan, TxPlan};
use rps_map::RpsMap;
use rss_table::Reta;
use std::alloc::Global;
use std::marker::Model;
use steer_base::{Command, Cpu, CpuMask, OutOfMemory, PacketId, RxQueue, TxQueue, round_up};
use xps_map::XpsMaps;

/// What commands change (kernel scaling chapter, sections RSS, RPS, RFS and XPS).
#[derive(Drop)]
pub struct InForce {
    masks: Vec<RpsMap>,
    counts: Vec<u32>,
    sock: u32,
    online: CpuMask,
    maps: XpsMaps,
    reta: Reta,
    stands: Vec<Cpu>,
}

impl Model for InForce {
    ghost use Rattle.steer_model.specs.State.Settings.{Settings};

    ghost Value = { Settings };

    ghost view = { λ s. record {
      masks = s.masks.items;
      counts = s.counts.items;
      sock = s.sock;
      online = s.online;
      maps = s.maps;
      reta = s.reta;
      stands = s.stands.items;
    } };
}

impl InForce {
    /// The settings that a plan begins with, with all its processors online.
    pub fn of_plan(alloc: Global, plan: &Plan) -> Result<InForce, OutOfMemory>
        ensures { IfOk result (λ settings. settings ≡ initial_settings plan.now) }
    {
        let queues = plan.queues.as_slice();
        Ok(InForce {
            masks: masks_of(alloc, queues)?,
            counts: counts_of(alloc, queues)?,
            sock: round_up(plan.sock),
            online: CpuMask::first_n(plan.cpus),
            maps: maps_of(alloc, plan.tx.as_slice())?,
            reta: Reta::from_entries(queues.len() as u8, plan.reta.as_slice()),
            stands: stands_of(alloc, plan.apps.as_slice())?,
        })
    }

    /// Makes the change of a command that is done; `expire` changes no setting.
    pub fn change(&mut self, command: &Command)
        requires { IsInRange self.old command.now }
        ensures { self.new ≡ changed self.old command.now }
    {
        match command {
            Command::Mask(q, mask) => self.set_mask(*q, *mask),
            Command::Flows(q, count) => self.set_flows(*q, *count),
            Command::Sock(size) => self.set_sock(*size),
            Command::Offline(cpu) => self.take_offline(*cpu),
            Command::Online(cpu) => self.take_online(*cpu),
            Command::XCpus(tx, mask) => self.set_tx_cpus(*tx, *mask),
            Command::XQueues(tx, queues) => self.set_tx_queues(*tx, *queues),
            Command::Reta(place, q) => self.set_entry(*place, *q),
            Command::Stand(app, cpu) => self.set_stand(app.0, *cpu),
            Command::Expire => {}
        }
    }

    // Sets the processors of a receive queue.
    fn set_mask(&mut self, q: RxQueue, mask: CpuMask)
        requires { q < length self.old.masks }
        ensures { self.new ≡ record self.old { masks = slice_set self.old.masks q mask } }
    {
        self.masks[q.0 as usize] = RpsMap::of_mask(mask);
    }

    // Sets the flow count of a receive queue, rounded up to a power of two.
    fn set_flows(&mut self, q: RxQueue, count: u32)
        requires queue { q < length self.old.counts }
        requires within { count ≤ MAX_FLOW_COUNT }
        ensures { self.new
            ≡ record self.old { counts = slice_set self.old.counts q (rounded_up count) } }
    {
        self.counts[q.0 as usize] = round_up(count);
    }

    // Sets the size of the socket flow table, rounded up to a power of two.
    fn set_sock(&mut self, size: u32)
        requires { size ≤ MAX_SOCKET_SIZE }
        ensures { self.new ≡ record self.old { sock = rounded_up size } }
    {
        self.sock = round_up(size);
    }

    // Takes a processor offline.
    fn take_offline(&mut self, cpu: Cpu)
        requires { cpu < 32 }
        ensures { self.new ≡ record self.old { online = without_cpu self.old.online cpu } }
    {
        self.online = self.online.without(cpu);
    }

    // Brings a processor online.
    fn take_online(&mut self, cpu: Cpu)
        requires { cpu < 32 }
        ensures { self.new ≡ record self.old { online = with_cpu self.old.online cpu } }
    {
        self.online = self.online.with(cpu);
    }

    // Sets the processors of a transmit queue.
    fn set_tx_cpus(&mut self, tx: TxQueue, mask: CpuMask)
        requires { tx < self.old.maps.count }
        ensures { self.new ≡ record self.old {
          maps = record self.old.maps { cpus = slice_set self.old.maps.cpus tx mask };
        } }
    {
        self.maps.set_cpus(tx, mask);
    }

    // Sets the receive queues of a transmit queue.
    fn set_tx_queues(&mut self, tx: TxQueue, queues: u16)
        requires { tx < self.old.maps.count }
        ensures { self.new ≡ record self.old {
          maps = record self.old.maps { queues = slice_set self.old.maps.queues tx queues };
        } }
    {
        self.maps.set_queues(tx, queues);
    }

    // Sets an entry of the redirection table to a queue.
    fn set_entry(&mut self, place: u8, q: RxQueue)
        requires { is_in_range self.old.reta place q ≡ true }
        ensures { self.new ≡ record self.old { reta = with_entry self.old.reta place q } }
    {
        self.reta.set(place, q).unwrap();
    }

    // Moves an application to a processor.
    fn set_stand(&mut self, app: u8, cpu: Cpu)
        requires { app < length self.old.stands }
        ensures { self.new ≡ record self.old { stands = slice_set self.old.stands app cpu } }
    {
        self.stands[app as usize] = cpu;
    }

    /// The processors that are online.
    pub fn online(&self) -> CpuMask
        ensures { result ≡ self.now.online }
    {
        self.online
    }

    /// The size of the socket flow table.
    pub fn sock(&self) -> u32
        ensures { result ≡ self.now.sock }
    {
        self.sock
    }

    /// The flow count of a receive queue, rounded up.
    pub fn flow_count(&self, q: u8) -> u32
        requires { q < length self.now.counts }
        ensures { result ≡ slice_index self.now.counts q }
    {
        self.counts[q as usize]
    }

    /// The receive queue that the redirection table gives a hash; queue 0 without a hash.
    pub fn queue(&self, hash: Option<u32>) -> RxQueue
        ensures value { result ≡ queue_of self.now.reta hash }
        ensures within { result < self.now.reta.queues }
    {
        self.reta.queue(hash)
    }

    /// The processor to which a receive queue sends a packet without a class: the RPS choice.
    pub fn plain_lane(&self, given: &Given, q: u8, id: PacketId) -> Cpu
        requires queue { q < length given.now.homes }
        requires masks { q < length self.now.masks }
        ensures { result ≡ plain_cpu given.now self.now q id }
    {
        self.masks[q as usize].choice(given.hash_of(id), self.online, given.home(q))
    }

    /// The transmit queue that the maps pick for a packet that was received on `rxq` and is sent
    /// from `cpu`.
    pub fn pick(&self, rxq: RxQueue, cpu: Cpu, hash: Option<u32>) -> u8
        ensures value { result ≡ picked self.now.maps rxq cpu hash }
        ensures within { result < self.now.maps.count }
    {
        self.maps.pick(rxq, cpu, hash).0
    }

    /// The processor of an application.
    pub fn stand(&self, a: u8) -> Cpu
        requires { a < length self.now.stands }
        ensures { result ≡ slice_index self.now.stands a }
    {
        self.stands[a as usize]
    }

    /// The processors of all applications.
    pub fn stands(&self) -> &[Cpu]
        ensures { result.now ≡ self.now.stands }
    {
        &self.stands
    }
}

// The processors of each receive queue.
fn masks_of(alloc: Global, queues: &[QueuePlan]) -> Result<Vec<RpsMap>, OutOfMemory>
    ensures { IfOk result (λ masks. masks.items ≡ map (λ queue. queue.mask) queues.now) }
{
    Ok(
        queues
            .iter()
            .map(|queue| RpsMap::of_mask(queue.mask))
            .collect(alloc)?,
    )
}

// The processors of all applications.
fn stands_of(alloc: Global, apps: &[Cpu]) -> Result<Vec<Cpu>, OutOfMemory>
    ensures { IfOk result (λ stands. stands.items ≡ apps.now) }
{
    Ok(apps.iter().copied().collect(alloc)?)
}

// The maps of a plan's transmit queues.
fn maps_of(alloc: Global, tx: &[TxPlan]) -> Result<XpsMaps, OutOfMemory>
    requires some { 1 ≤ length tx.now }
    requires few { length tx.now ≤ 32 }
    ensures { IfOk result (λ maps. maps ≡ maps_of_plan tx.now) }
{
    let cpus = tx_cpus_of(alloc, tx)?;
    let queues = tx_queues_of(alloc, tx)?;
    Ok(XpsMaps::from_lists(&cpus, &queues))
}

// The processors of each transmit queue.
fn tx_cpus_of(alloc: Global, tx: &[TxPlan]) -> Result<Vec<CpuMask>, OutOfMemory>
    ensures { IfOk result (λ cpus. cpus.items ≡ map (λ queue. queue.cpus) tx.now) }
{
    Ok(tx.iter().map(|queue| queue.cpus).collect(alloc)?)
}

// The receive queues of each transmit queue.
fn tx_queues_of(alloc: Global, tx: &[TxPlan]) -> Result<Vec<u16>, OutOfMemory>
    ensures { IfOk result (λ queues. queues.items ≡ map (λ queue. queue.queues) tx.now) }
{
    Ok(tx.iter().map(|queue| queue.queues).collect(alloc)?)
}

// The flow count of each receive queue, rounded up to a power of two.
fn counts_of(alloc: Global, queues: &[QueuePlan]) -> Result<Vec<u32>, OutOfMemory>
    requires { All (λ queue. queue.flows ≤ MAX_FLOW_COUNT) queues.now }
    ensures { IfOk result (λ counts.
        counts.items ≡ map (λ queue. rounded_up queue.flows) queues.now) }
{
    let mut counts = Vec::with_capacity(alloc, queues.len())?;
    for queue in queues {
        counts.push(round_up(queue.flows))?;
    }
    Ok(counts)
}
