//! A set of processors.
ghost use Rattle.std.specs.Prelude.{ℕ, ◌≡◌, ◌<◌, ◌≤◌, ◌==◌, ◌&&◌, ◌||◌, not, nat_lt, IsTrue};
ghost use Rattle.std.specs.Prelude.{◌∷◌, length, slice_index};
ghost use Rattle.std.specs.List.{list_any};

use crate::ids::Cpu;

/// A set of processors: bit c is processor c. A number of 32 or more is in no set.
#[derive(Clone, Copy, Debug, PartialEq, Eq)]
pub struct CpuMask(pub u32);

impl CpuMask {
    ghost use Rattle.steer_base.specs.Sets.{first_cpus, has, is_empty, members, with_cpu};
    ghost use Rattle.steer_base.specs.Sets.{without_cpu};

    /// The processors below `count`, which is at most 32.
    pub fn first_n(count: u8) -> CpuMask
        requires { count ≤ 32 }
        ensures value { result ≡ first_cpus count }
        ensures members { (cpu : ℕ) → has result cpu ≡ nat_lt cpu count }
    {
        CpuMask(((1u64 << count) - 1) as u32)
    }

    /// The processors of a list. A number of 32 or more is left out.
    pub fn from_cpus(cpus: &[Cpu]) -> CpuMask
        ensures { (cpu : ℕ) → has result cpu
            ≡ (nat_lt cpu 32 && list_any (λ other. other == cpu) cpus.now) }
    {
        let mut mask = CpuMask(0);
        for cpu in cpus {
            mask = mask.with(*cpu);
        }
        mask
    }

    /// Whether the processor is in the set.
    pub fn has(self, cpu: u8) -> bool
        ensures { result ≡ has self cpu }
    {
        cpu < 32 && self.0 >> cpu & 1 == 1
    }

    /// Whether no processor is in the set.
    pub fn is_empty(self) -> bool
        ensures { result ≡ is_empty (members self) }
    {
        self.len() == 0
    }

    /// How many processors are in the set.
    pub fn len(self) -> u32
        ensures value { result ≡ length (members self) }
        ensures most { result ≤ 32 }
    {
        self.0.count_ones()
    }

    /// The least processor of the set.
    pub fn lowest(self) -> Cpu
        requires { 0 < length (members self) }
        ensures within { result < 32 }
        ensures member { IsTrue (has self result) }
        ensures first { members self ≡ result ∷ members (without_cpu self result) }
    {
        Cpu(self.0.trailing_zeros() as u8)
    }

    /// The processor that `index` others of the set are below.
    pub fn nth(self, index: u32) -> Cpu
        requires { index < length (members self) }
        ensures value { result ≡ slice_index (members self) index }
        ensures member { IsTrue (has self result) }
    {
        let mut rest = self;
        for _ in 0..index {
            rest = rest.without(rest.lowest());
        }
        rest.lowest()
    }

    /// The set with one processor more. A number of 32 or more is left out.
    pub fn with(self, cpu: Cpu) -> CpuMask
        ensures value { cpu < 32 → result ≡ with_cpu self cpu }
        ensures members { (other : ℕ) → has result other
            ≡ (has self other || (nat_lt other 32 && cpu == other)) }
    {
        if cpu.0 < 32 {
            CpuMask(self.0 | 1 << cpu.0)
        } else {
            self
        }
    }

    /// The set with one processor less.
    pub fn without(self, cpu: Cpu) -> CpuMask
        ensures value { cpu < 32 → result ≡ without_cpu self cpu }
        ensures members { (other : ℕ) → has result other ≡ (has self other && not (cpu == other)) }
    {
        if cpu.0 < 32 {
            CpuMask(self.0 & !(1 << cpu.0))
        } else {
            self
        }
    }
}
