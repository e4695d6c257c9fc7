//! What is wrong with a plan, and where.
ghost use Rattle.std.specs.Prelude.{◌≡◌, ◌∷◌, ◌++◌, []};

use crate::faults::cause::Cause;
use crate::faults::path::joined;
use std::alloc::{AllocError, AllocFailed, Global};
use steer_base::List;

/// What is wrong with a text, and where.
#[derive(Drop)]
pub struct Fault {
    /// The keys and positions that lead to the value, each after a slash; empty for the whole text.
    pub path: List<u8>,
    /// What is wrong with the value at the path.
    pub cause: Cause,
}

/// Why a value was not read.
#[derive(Drop)]
pub enum Refusal {
    /// There was not enough memory, which says nothing about the value.
    Memory,
    /// The value has a fault.
    Fault(Fault),
}

impl From<AllocError> for Refusal {
    ghost use Rattle.plan_reader.specs.declared.faults.fault.Refusal.TheVariants.{Memory};
    ghost use Rattle.std.specs.Prelude.{◌≡◌};

    ghost from_gives = { λ _ e. e ≡ Memory };

    fn from(_: AllocError) -> Self {
        Refusal::Memory
    }
}

impl<T: Drop> From<AllocFailed<T>> for Refusal {
    ghost use Rattle.plan_reader.specs.declared.faults.fault.Refusal.TheVariants.{Memory};
    ghost use Rattle.std.specs.Prelude.{◌≡◌};

    ghost from_gives = { λ _ e. e ≡ Memory };

    fn from(_: AllocFailed<T>) -> Self {
        Refusal::Memory
    }
}

impl Refusal {
    ghost use Rattle.plan_reader.specs.Faults.{IsUnder};

    /// A fault of the value that is read, with an empty path. Allocates nothing.
    pub fn here(alloc: Global, cause: Cause) -> Refusal
        ensures { result ≡ Refusal.Fault (record { path = []; cause = cause }) }
    {
        Refusal::Fault(Fault {
            path: List::from_vec(Vec::new(alloc)),
            cause,
        })
    }

    /// The refusal of the value that has the refused one at this key or position: the path with the
    /// segment in front. `Memory` if the path cannot be allocated.
    pub fn under(self, alloc: Global, segment: &str) -> Refusal
        ensures { IsUnder segment.now self result }
    {
        let fault = match self {
            Refusal::Memory => return Refusal::Memory,
            Refusal::Fault(fault) => fault,
        };
        match joined(alloc, segment, fault.path.as_slice()) {
            Ok(path) => Refusal::Fault(Fault {
                path,
                cause: fault.cause,
            }),
            Err(_) => Refusal::Memory,
        }
    }
}
