use arm_step::Cpu;
use cache_lru::Lru;

/// Where a run starts: the processor, whose pc is the entry, and the instruction cache.
#[derive(Drop)]
pub struct Start {
    /// Registers, flags and the memory that is written.
    pub cpu: Cpu,
    /// The instruction cache.
    pub cache: Lru,
}
