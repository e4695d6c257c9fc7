//! What stands in an entry, and the generations by which all entries are cleared at once.
ghost use Rattle.std.specs.Prelude.{◌≡◌, replicate, None};
ghost use Rattle.std.specs.Vec.{vec_len, vec_capacity};

use steer_base::Cpu;

/// The generation of a new table, in which none of its entries was noted.
pub(crate) const FIRST_GENERATION: u8 = 1;

/// The processor that was noted in an entry, and the table's generation when it was noted.
#[derive(Clone, Copy)]
pub(crate) struct Noted {
    generation: u8,
    cpu: Cpu,
}

impl Noted {
    ghost use Rattle.sock_flow_table.specs.Generations.{AreUpTo, current, never, shown};

    /// An entry of a table that was never used.
    pub(crate) fn never() -> Noted
        ensures { result ≡ never }
    {
        Noted {
            generation: 0,
            cpu: Cpu(0),
        }
    }

    /// A processor, noted in a generation.
    pub(crate) fn make(generation: u8, cpu: Cpu) -> Noted
        ensures { result ≡ record { generation = generation; cpu = cpu } }
    {
        Noted { generation, cpu }
    }

    /// The processor, if it was noted in this generation.
    pub(crate) fn current(self, generation: u8) -> Option<Cpu>
        ensures { result ≡ current generation self }
    {
        if self.generation == generation {
            Some(self.cpu)
        } else {
            None
        }
    }

    /// Clears all entries of a table in this generation: returns the table's new one, in which no
    /// entry was noted. It writes entries only after the last generation, 255.
    pub(crate) fn clear_all(entries: &mut Vec<Noted>, generation: u8) -> u8
        requires { AreUpTo generation entries.old.items }
        ensures unset { shown result entries.new.items ≡ replicate (vec_len entries.old) None }
        ensures up { AreUpTo result entries.new.items }
        ensures len { vec_len entries.new ≡ vec_len entries.old }
        ensures capacity { vec_capacity entries.new ≡ vec_capacity entries.old }
    {
        if generation < u8::MAX {
            return generation + 1;
        }
        Noted::forget_all(entries);
        FIRST_GENERATION
    }

    // Writes entries as they are in a table that was never used.
    fn forget_all(entries: &mut Vec<Noted>)
        ensures items { entries.new.items ≡ replicate (vec_len entries.old) never }
        ensures capacity { vec_capacity entries.new ≡ vec_capacity entries.old }
    {
        for place in 0..entries.len() {
            entries[place] = Noted::never();
        }
    }
}
