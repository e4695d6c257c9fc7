//! The commands of a plan.
ghost use Rattle.std.specs.Prelude.{◌≡◌, IfOk};
ghost use Rattle.std.specs.List.{filter_map};
ghost use Rattle.plan_reader.specs.Ranges.{command_in, commands_of, steps_in_list};

use crate::plan::Steps;
use std::alloc::{AllocError, Global};
use steer_base::{Command, List, Step};

/// The command that a step gives.
fn command_in(step: Step) -> Option<Command>
    ensures { result ≡ command_in step }
{
    match step {
        Step::Give(command) => Some(command),
        _ => None,
    }
}

/// The steps of a list, none of a seed.
fn listed(steps: &Steps) -> &[Step]
    ensures { result.now ≡ steps_in_list steps.now }
{
    match steps {
        Steps::List(list) => list.as_slice(),
        Steps::Seed { .. } => &[],
    }
}

/// The commands among steps, in their order.
fn commands_among(alloc: Global, steps: &[Step]) -> Result<Vec<Command>, AllocError>
    ensures { IfOk result (λ commands. commands.items ≡ filter_map command_in steps.now) }
{
    let mut commands = Vec::new(alloc);
    for step in steps {
        if let Some(command) = command_in(*step) {
            commands.push(command)?;
        }
    }
    Ok(commands)
}

/// The commands of a list, in their order.
pub fn commands_of(alloc: Global, steps: &Steps) -> Result<List<Command>, AllocError>
    ensures { IfOk result (λ commands. commands ≡ commands_of steps.now) }
{
    let commands = commands_among(alloc, listed(steps))?;
    Ok(List::from_vec(commands))
}
