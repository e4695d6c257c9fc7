//! The processors that are online.
ghost use Rattle.std.specs.Prelude.{◌≡◌, ◌<◌, ◌≤◌, ◌==◌, None, Some, IfErr, IfSome, OnOk, length};
ghost use Rattle.std.specs.Prelude.{position};
ghost use Rattle.steer_base.specs.Commands.{refusal, user_of};

use steer_base::{AppId, Command, Cpu, CpuMask, Refused, RxQueue, User};

/// The set of processors that are online.
#[derive(Clone, Copy, Debug, PartialEq, Eq)]
pub struct Online {
    /// Bit c is processor c.
    pub mask: CpuMask,
}

impl Online {
    /// Checks whether a command may be given at all. Refused: taking an offline processor offline,
    /// moving an application to one, bringing an online processor online, and taking a processor
    /// offline while it is the home of a receive queue or runs an application. For the last, the
    /// error names the lowest such queue, or else the lowest such application. `homes` has the home
    /// processor of each receive queue, `stands` the processor of each application.
    pub fn may(&self, command: &Command, homes: &[Cpu], stands: &[Cpu]) -> Result<(), Refused>
        requires homes { length homes.now ≤ 32 }
        requires stands { length stands.now ≤ 32 }
        ensures ok { OnOk result (refusal self.now.mask command.now homes.now stands.now ≡ None) }
        ensures refused { IfErr result
            (λ why. refusal self.now.mask command.now homes.now stands.now ≡ Some why) }
    {
        match command {
            Command::Offline(cpu) => self.may_go_offline(*cpu, homes, stands),
            Command::Stand(_, cpu) if !self.mask.has(cpu.0) => Err(Refused::CpuOffline),
            Command::Online(cpu) if self.mask.has(cpu.0) => Err(Refused::AlreadyOnline),
            _ => Ok(()),
        }
    }

    // Whether a processor may go offline.
    fn may_go_offline(&self, cpu: Cpu, homes: &[Cpu], stands: &[Cpu]) -> Result<(), Refused>
        requires homes { length homes.now ≤ 32 }
        requires stands { length stands.now ≤ 32 }
        ensures ok { OnOk result
            (refusal self.now.mask (Command.Offline cpu) homes.now stands.now ≡ None) }
        ensures refused { IfErr result
            (λ why. refusal self.now.mask (Command.Offline cpu) homes.now stands.now ≡ Some why) }
    {
        if !self.mask.has(cpu.0) {
            return Err(Refused::CpuOffline);
        }
        match who_uses(cpu, homes, stands) {
            Some(user) => Err(Refused::CpuInUse(user)),
            None => Ok(()),
        }
    }
}

// The lowest receive queue whose home is the processor, else the lowest application on it.
fn who_uses(cpu: Cpu, homes: &[Cpu], stands: &[Cpu]) -> Option<User>
    requires homes { length homes.now ≤ 32 }
    requires stands { length stands.now ≤ 32 }
    ensures { result ≡ user_of homes.now stands.now cpu }
{
    if let Some(queue) = place_of(cpu, homes) {
        return Some(User::Queue(RxQueue(queue as u8)));
    }
    if let Some(app) = place_of(cpu, stands) {
        return Some(User::App(AppId(app as u8)));
    }
    None
}

// The first index of a processor in a list.
fn place_of(cpu: Cpu, cpus: &[Cpu]) -> Option<usize>
    ensures value { result ≡ position (λ other. other == cpu) cpus.now }
    ensures within { IfSome result (λ place. place < length cpus.now) }
{
    cpus.iter().position(|other| *other == cpu)
}
