//! The lanes that a command affects.
ghost use Rattle.std.specs.Prelude.{ℕ, ◌≡◌, ◌<◌, ◌≤◌, length};
ghost use Rattle.steer_base.specs.Commands.{is_affected};
ghost use Rattle.steer_base.specs.Sets.{has};

use steer_base::{Command, Cpu, CpuMask};

/// The lanes that must be empty for a command: all processors for a mask, a flow count and the
/// socket table's size; the named processor if it goes offline; the homes of all receive queues if
/// one comes online; all transmit queues for their maps; and none for an entry of the redirection
/// table, an application's processor and an expiry. `homes` has the home processor of each receive
/// queue; `cpus` and `txs` are the numbers of processors and of transmit queues.
pub fn affected(command: &Command, homes: &[Cpu], cpus: u8, txs: u8) -> CpuMask
    requires cpus { cpus ≤ 32 }
    requires txs { txs ≤ 32 }
    requires homes { length homes.now ≤ 32 }
    ensures lanes { (lane : ℕ) → lane < 32
        → has result lane ≡ is_affected command.now homes.now cpus txs lane }
{
    match command {
        Command::Mask(..) | Command::Flows(..) | Command::Sock(_) => CpuMask::first_n(cpus),
        Command::Offline(cpu) => CpuMask(0).with(*cpu),
        Command::Online(_) => CpuMask::from_cpus(homes),
        Command::XCpus(..) | Command::XQueues(..) => CpuMask::first_n(txs),
        Command::Reta(..) | Command::Stand(..) | Command::Expire => CpuMask(0),
    }
}
