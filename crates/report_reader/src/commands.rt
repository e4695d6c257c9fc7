//! The lines of commands with their answers.
ghost use Rattle.std.specs.Prelude.{◌≡◌, ◌≤◌, codes, true};
ghost use Rattle.steer_base.specs.declared.command.Answer.{Answer as AnAnswer};
ghost use Rattle.steer_base.specs.declared.command.Busy.{Busy as ABusy};
ghost use Rattle.steer_base.specs.declared.command.Command.{Command as ACommand};
ghost use Rattle.steer_base.specs.declared.command.User.{User as AUser};
ghost use Rattle.report_reader.specs.Commands.{ShowsAnswer, ShowsBusy, ShowsCommand};
ghost use Rattle.report_reader.specs.Commands.{ShowsCommanded, ShowsUser, has_pair};
ghost use Rattle.report_reader.specs.Commands.{answer_start as start_of};
ghost use Rattle.report_reader.specs.declared.shortest.TheConstants.{SHORTEST_COMMAND};

use crate::fields::Fields;
use crate::sections::Section;
use crate::sets::members;
use crate::shortest::SHORTEST_COMMAND;
use history::Commanded;
use steer_base::{Answer, AppId, Busy, Command, Cpu, Idle, RxQueue, TxQueue, User};

/// The lines of commands.
pub struct Commands;

// The command that a line shows.
fn command(fields: &Fields<'_>) -> Command
    ensures { (c : ACommand) → ShowsCommand fields.now c → result ≡ c }
{
    let kind = fields.at(2);
    if kind == b"sock".as_slice() {
        return Command::Sock(fields.word(3));
    }
    if kind == b"offline".as_slice() {
        return Command::Offline(Cpu(fields.byte(3)));
    }
    if kind == b"online".as_slice() {
        return Command::Online(Cpu(fields.byte(3)));
    }
    if kind == b"expire".as_slice() {
        return Command::Expire;
    }
    pair(fields)
}

// The command that a line shows, where it has two parts.
fn pair(fields: &Fields<'_>) -> Command
    ensures { (c : ACommand) → ShowsCommand fields.now c → has_pair c ≡ true → result ≡ c }
{
    let kind = fields.at(2);
    let first = fields.byte(3);
    if kind == b"mask".as_slice() {
        return Command::Mask(RxQueue(first), members(fields.at(4)));
    }
    if kind == b"flows".as_slice() {
        return Command::Flows(RxQueue(first), fields.word(4));
    }
    if kind == b"xcpus".as_slice() {
        return Command::XCpus(TxQueue(first), members(fields.at(4)));
    }
    if kind == b"xqueues".as_slice() {
        return Command::XQueues(TxQueue(first), (members(fields.at(4)).0 & 65_535) as u16);
    }
    if kind == b"reta".as_slice() {
        return Command::Reta(first, RxQueue(fields.byte(4)));
    }
    Command::Stand(AppId(first), Cpu(fields.byte(4)))
}

// How many fields there are before those of the answer to a command.
fn answer_start(command: &Command) -> usize
    ensures { result ≡ start_of command.now }
{
    match command {
        Command::Sock(_) => 4,
        Command::Offline(_) => 4,
        Command::Online(_) => 4,
        Command::Expire => 3,
        _ => 5,
    }
}

// Why the machine was busy, with the fields from this one on.
fn busy(fields: &Fields<'_>, from: usize) -> Busy
    requires { from ≤ 8 }
    ensures { (b : ABusy) → ShowsBusy fields.now from b → result ≡ b }
{
    if fields.at(from) == b"inside".as_slice() {
        return Busy::Inside(fields.word(from + 1));
    }
    Busy::NotEmpty {
        lane: fields.byte(from + 1),
        head: fields.word(from + 3),
        tail: fields.word(from + 5),
    }
}

// Who uses a processor, with the fields from this one on.
fn user(fields: &Fields<'_>, from: usize) -> User
    requires { from ≤ 8 }
    ensures { (u : AUser) → ShowsUser fields.now from u → result ≡ u }
{
    if fields.at(from) == b"queue".as_slice() {
        return User::Queue(RxQueue(fields.byte(from + 1)));
    }
    User::App(AppId(fields.byte(from + 1)))
}

// The answer, with the fields from this one on.
fn answer(fields: &Fields<'_>, from: usize) -> Answer
    requires { from ≤ 5 }
    ensures { (a : AnAnswer) → ShowsAnswer fields.now from a → result ≡ a }
{
    let kind = fields.at(from);
    if kind == b"done".as_slice() {
        return Answer::Done;
    }
    if kind == b"idle".as_slice() {
        return Answer::Idle(Idle::AlreadyOnline);
    }
    if kind == b"busy".as_slice() {
        return Answer::Busy(busy(fields, from + 1));
    }
    if kind == b"in".as_slice() {
        return Answer::CpuInUse(user(fields, from + 2));
    }
    if kind == b"cpu".as_slice() {
        return Answer::CpuOffline;
    }
    Answer::Expired(fields.word(from + 1))
}

impl Section<Commanded> for Commands {
    ghost first = { codes "c" };

    ghost least = { SHORTEST_COMMAND };

    ghost shows = { ShowsCommanded };

    ghost gives = { ShowsCommanded };

    fn word(&self) -> &'static [u8] {
        b"c".as_slice()
    }

    fn shortest(&self) -> usize {
        SHORTEST_COMMAND
    }

    fn steps(&self) -> &'static [u8] {
        &[]
    }

    fn item(&self, fields: &Fields<'_>) -> Commanded {
        let command = command(fields);
        let from = answer_start(&command);
        Commanded {
            command,
            answer: answer(fields, from),
        }
    }
}
