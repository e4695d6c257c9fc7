//! Reads the fields of a plan, in their order.
use crate::faults::fault::Refusal;
use crate::limits::{MAX_PLAN_BACKLOG, MAX_PLAN_FILTERS};
use crate::plan::{QueuePlan, Steps, TxPlan};
use crate::settings::key::key_or_default;
use crate::settings::reta::reta_or_even;
use crate::settings::sizes::Sizes;
use crate::steps::reading::required_steps;
use crate::values::fields::{list_or, number_or, required_list, required_number, set_or_empty};
use crate::values::object::{an_object, only};
use serde_json::Value;
use std::alloc::Global;
use steer_base::{Cpu, CpuMask, Detach, List, MAX_SOCKET_SIZE, RxQueue};

/// The processors, the receive queues, and how packets are spread over them.
#[derive(Drop)]
pub struct Receive {
    /// The number of processors, 1 to 32.
    pub cpus: u8,
    /// The receive queues, 1 to 16.
    pub queues: List<QueuePlan>,
    /// The key of the receive hash.
    pub key: [u8; 40],
    /// The enabled hash kinds, 0 to 63.
    pub kinds: u8,
    /// The 128 entries of the redirection table.
    pub reta: List<RxQueue>,
}

/// The sizes of tables, the backlog limit, the counter start, and who has the flow limit.
#[derive(Clone, Copy)]
pub struct Tables {
    /// The size of the socket flow table.
    pub sock: u32,
    /// The number of hardware filters.
    pub filters: u32,
    /// The most packets in a processor's backlog, at least 1.
    pub backlog: u32,
    /// The value of the counters before the first packet.
    pub start: u32,
    /// The processors that have the flow limit.
    pub limited: CpuMask,
}

/// The applications, the transmit queues, and how the replay is run.
#[derive(Drop)]
pub struct Sends {
    /// The processor of each application, 1 to 32.
    pub apps: List<Cpu>,
    /// The transmit queues, 1 to 32.
    pub tx: List<TxPlan>,
    /// The number of threads, 1 to 32.
    pub workers: u32,
    /// How often a command is tried, 1 to 64.
    pub tries: u32,
    /// The taps that are detached, at most 32.
    pub detach: List<Detach>,
}

/// All fields of a plan.
#[derive(Drop)]
pub struct Parts {
    /// The fields from `cpus` to `reta`.
    pub receive: Receive,
    /// The fields from `sock` to `limited`.
    pub tables: Tables,
    /// The fields from `apps` to `detach`.
    pub sends: Sends,
    /// The field `steps`.
    pub steps: Steps,
}

impl Receive {
    ghost use Rattle.std.specs.Prelude.{◌≡◌, IfOk};
    ghost use Rattle.serde_json.specs.View.{view};
    ghost use Rattle.plan_reader.specs.Faults.{Gives};
    ghost use Rattle.plan_reader.specs.PlanTexts.{receive_of};
    ghost use Rattle.plan_reader.specs.Parts.{ReceiveIsWithin};

    /// Reads these fields.
    #[tactic(auto, unfolding(crate::specs::PlanTexts::receive_of))]
    pub fn read(alloc: Global, value: &Value) -> Result<Receive, Refusal>
        ensures gives { Gives result (receive_of (view value.now)) }
        ensures within { IfOk result ReceiveIsWithin }
    {
        let cpus = required_number(alloc, value, "cpus", 1, 32)? as u8;
        let sizes = Sizes {
            cpus,
            queues: 0,
            apps: 0,
            tx: 0,
        };
        let queues = required_list(alloc, sizes, value, "queues", 1, 16)?;
        let key = key_or_default(alloc, value)?;
        let kinds = number_or(alloc, value, "kinds", 0, 63, 63)? as u8;
        let reta = reta_or_even(alloc, &queues, value)?;
        Ok(Receive {
            cpus,
            queues,
            key,
            kinds,
            reta,
        })
    }
}

impl Tables {
    ghost use Rattle.std.specs.Prelude.{◌≡◌, ◌≤◌, IfOk};
    ghost use Rattle.serde_json.specs.View.{view};
    ghost use Rattle.plan_reader.specs.Faults.{Gives};
    ghost use Rattle.plan_reader.specs.PlanTexts.{tables_of};
    ghost use Rattle.plan_reader.specs.Parts.{TablesAreWithin};

    /// Reads these fields.
    #[tactic(auto, unfolding(crate::specs::PlanTexts::tables_of))]
    pub fn read(alloc: Global, cpus: u8, value: &Value) -> Result<Tables, Refusal>
        requires { cpus ≤ 32 }
        ensures gives { Gives result (tables_of cpus (view value.now)) }
        ensures within { IfOk result (TablesAreWithin cpus) }
    {
        let sock = required_number(alloc, value, "sock", 0, u64::from(MAX_SOCKET_SIZE))?;
        let filters = number_or(alloc, value, "filters", 0, u64::from(MAX_PLAN_FILTERS), 0)?;
        let backlog = number_or(
            alloc,
            value,
            "backlog",
            1,
            u64::from(MAX_PLAN_BACKLOG),
            1_000,
        )?;
        let start = number_or(alloc, value, "start", 0, 4_294_967_295, 0)?;
        let limited = set_or_empty(alloc, value, "limited", 32, cpus)?;
        Ok(Tables {
            sock: sock as u32,
            filters: filters as u32,
            backlog: backlog as u32,
            start: start as u32,
            limited: CpuMask(limited),
        })
    }
}

impl Sends {
    ghost use Rattle.std.specs.Prelude.{◌≡◌, ◌≤◌, IfOk, length};
    ghost use Rattle.serde_json.specs.View.{view};
    ghost use Rattle.plan_reader.specs.Faults.{Gives};
    ghost use Rattle.plan_reader.specs.PlanTexts.{sends_of};
    ghost use Rattle.plan_reader.specs.Parts.{ReceiveIsWithin, SendsAreWithin};

    /// Reads these fields.
    #[tactic(auto, unfolding(crate::specs::PlanTexts::sends_of))]
    fn read_with(alloc: Global, sizes: Sizes, value: &Value) -> Result<Sends, Refusal>
        requires cpus { sizes.cpus ≤ 32 }
        requires queues { sizes.queues ≤ 16 }
        ensures gives { Gives result (sends_of sizes.cpus sizes.queues (view value.now)) }
        ensures within { IfOk result (SendsAreWithin sizes.cpus sizes.queues) }
    {
        let apps = required_list(alloc, sizes, value, "apps", 1, 32)?;
        let tx = required_list(alloc, sizes, value, "tx", 1, 32)?;
        let workers = number_or(alloc, value, "workers", 1, 32, 1)?;
        let tries = number_or(alloc, value, "tries", 1, 64, 1)?;
        let nothing = List::from_vec(Vec::new(alloc));
        let detach = list_or(alloc, sizes, value, "detach", 0, 32, nothing)?;
        Ok(Sends {
            apps,
            tx,
            workers: workers as u32,
            tries: tries as u32,
            detach,
        })
    }

    /// Reads these fields of a plan with these queues.
    pub fn read(alloc: Global, receive: &Receive, value: &Value) -> Result<Sends, Refusal>
        requires { ReceiveIsWithin receive.now }
        ensures gives { Gives result
            (sends_of receive.now.cpus (length receive.now.queues) (view value.now)) }
        ensures within { IfOk result
            (SendsAreWithin receive.now.cpus (length receive.now.queues)) }
    {
        let sizes = Sizes {
            cpus: receive.cpus,
            queues: receive.queues.len() as u8,
            apps: 0,
            tx: 0,
        };
        Sends::read_with(alloc, sizes, value)
    }
}

impl Parts {
    ghost use Rattle.std.specs.Prelude.{◌≡◌, IfOk, codes, length};
    ghost use Rattle.serde_json.specs.View.{view};
    ghost use Rattle.plan_reader.specs.Faults.{Gives, GivesAs};
    ghost use Rattle.plan_reader.specs.Parts.{ReceiveIsWithin, SendsAreWithin, PartsAreWithin};
    ghost use Rattle.plan_reader.specs.PlanTexts.{joined, plan_keys, settings_in, sizes_with};
    ghost use Rattle.plan_reader.specs.Ranges.{StepsAreWithin};
    ghost use Rattle.plan_reader.specs.Readings.{only, required, read_steps};

    /// The steps of a plan with these queues and applications.
    fn steps(
        alloc: Global,
        receive: &Receive,
        sends: &Sends,
        value: &Value,
    ) -> Result<Steps, Refusal>
        requires receive { ReceiveIsWithin receive.now }
        requires sends { SendsAreWithin receive.now.cpus (length receive.now.queues) sends.now }
        ensures gives { Gives result (required (codes "steps")
            (read_steps (sizes_with receive.now sends.now)) (view value.now)) }
        ensures within { IfOk result (StepsAreWithin (sizes_with receive.now sends.now)) }
    {
        let sizes = Sizes {
            cpus: receive.cpus,
            queues: receive.queues.len() as u8,
            apps: sends.apps.len() as u8,
            tx: sends.tx.len() as u8,
        };
        required_steps(alloc, sizes, value)
    }

    /// Refuses an object that has another key than a plan.
    fn only_known(alloc: Global, value: &Value) -> Result<(), Refusal>
        ensures { Gives result (only plan_keys (view value.now)) }
    {
        let keys = [
            "cpus", "queues", "key", "kinds", "reta", "sock", "filters", "backlog", "start",
            "limited", "apps", "tx", "workers", "tries", "detach", "steps",
        ];
        only(alloc, value, &keys)
    }

    /// Reads all fields.
    #[tactic(auto, unfolding(crate::specs::PlanTexts::settings_in))]
    pub fn read(alloc: Global, value: &Value) -> Result<Parts, Refusal>
        ensures gives { GivesAs joined result (settings_in (view value.now)) }
        ensures within { IfOk result PartsAreWithin }
    {
        an_object(alloc, value)?;
        let receive = Receive::read(alloc, value)?;
        let tables = Tables::read(alloc, receive.cpus, value)?;
        let sends = Sends::read(alloc, &receive, value)?;
        let steps = Parts::steps(alloc, &receive, &sends, value)?;
        Parts::only_known(alloc, value)?;
        Ok(Parts {
            receive,
            tables,
            sends,
            steps,
        })
    }
}
