//! Which commands are refused, and which lanes a command affects.
use crate::equal::same;
use hotplug::{Online, affected};
use steer_base::{AppId, Command, Cpu, CpuMask, Refused, RxQueue, TxQueue, User};

const ALL: u32 = 0b1111;

const WITHOUT_2: u32 = 0b1011;

const REFUSALS: [(u32, Command, u8, Result<(), Refused>); 9] = [
    // Processor 0 is home to queue 0, and application 0 stands on processor 2.
    (
        ALL,
        Command::Offline(Cpu(0)),
        2,
        Err(Refused::CpuInUse(User::Queue(RxQueue(0)))),
    ),
    (
        ALL,
        Command::Offline(Cpu(2)),
        2,
        Err(Refused::CpuInUse(User::App(AppId(0)))),
    ),
    (ALL, Command::Stand(AppId(0), Cpu(3)), 2, Ok(())),
    // It stands on processor 3 now.
    (ALL, Command::Offline(Cpu(2)), 3, Ok(())),
    // Processor 2 is offline now.
    (
        WITHOUT_2,
        Command::Offline(Cpu(2)),
        3,
        Err(Refused::CpuOffline),
    ),
    (
        WITHOUT_2,
        Command::Stand(AppId(0), Cpu(2)),
        3,
        Err(Refused::CpuOffline),
    ),
    (
        WITHOUT_2,
        Command::Online(Cpu(3)),
        3,
        Err(Refused::AlreadyOnline),
    ),
    (WITHOUT_2, Command::Online(Cpu(2)), 3, Ok(())),
    (WITHOUT_2, Command::XCpus(TxQueue(0), CpuMask(0)), 3, Ok(())),
];

#[test]
fn commands_are_refused(rt: HostRuntime) {
    let home = [Cpu(0)];
    for &(online, command, stand, wanted) in &REFUSALS {
        let online = Online {
            mask: CpuMask(online),
        };
        let answer = online.may(&command, &home, &[Cpu(stand)]);
        same(&rt, &(command, answer), &(command, wanted), 0);
    }
}

#[test]
fn the_lowest_user_is_named(rt: HostRuntime) {
    let all = Online {
        mask: CpuMask(0b1111),
    };
    // The lowest queue is named before an application, and the lowest application.
    let homes = [Cpu(0), Cpu(1), Cpu(1)];
    let stands = [Cpu(3), Cpu(2), Cpu(1), Cpu(2)];
    for (cpu, user) in [(1u8, User::Queue(RxQueue(1))), (2, User::App(AppId(1)))] {
        let answer = all.may(&Command::Offline(Cpu(cpu)), &homes, &stands);
        same(&rt, &answer, &Err(Refused::CpuInUse(user)), cpu as usize);
    }
}

const AFFECTED: [(Command, u32); 10] = [
    (Command::Mask(RxQueue(1), CpuMask(1)), 0b1111u32),
    (Command::Flows(RxQueue(1), 2), 0b1111),
    (Command::Sock(2), 0b1111),
    (Command::Offline(Cpu(2)), 0b100),
    (Command::Online(Cpu(2)), 0b1001),
    (Command::XCpus(TxQueue(1), CpuMask(1)), 0b11),
    (Command::XQueues(TxQueue(1), 1), 0b11),
    (Command::Reta(5, RxQueue(1)), 0),
    (Command::Stand(AppId(0), Cpu(1)), 0),
    (Command::Expire, 0),
];

#[test]
fn commands_affect_lanes(rt: HostRuntime) {
    let homes = [Cpu(3), Cpu(0), Cpu(3)];
    for &(command, wanted) in &AFFECTED {
        let lanes = affected(&command, &homes, 4, 2);
        same(&rt, &(command, lanes), &(command, CpuMask(wanted)), 0);
    }
    let all = affected(&Command::Sock(1), &homes, 32, 1);
    same(&rt, &all, &CpuMask(0xffff_ffff), 1);
}
