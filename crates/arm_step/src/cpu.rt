ghost use Rattle.std.specs.Prelude.{◌≡◌, ◌<◌};
ghost use Rattle.wx_base.specs.State.{replaced, value_of, next_address};
ghost use Rattle.arm_step.specs.Cpu.{registers_of, flags_in};

use arm_code::PC;
use wx_base::Flags;
use wx_mem::Memory;

/// The registers, flags and memory of the machine. With an image it stands for a state: the byte at an address is the
/// last that was written to the memory there, else the image's, else the memory's fill.
#[derive(Drop)]
pub struct Cpu {
    /// r0 to r15; the last is the address of the instruction to be executed.
    pub regs: [u32; 16],
    /// Negative.
    pub n: bool,
    /// Zero.
    pub z: bool,
    /// Carry.
    pub c: bool,
    /// Overflow.
    pub v: bool,
    pub memory: Memory,
}

impl Cpu {
    /// The four flags.
    pub(crate) fn flags(&self) -> Flags
        ensures { result ≡ flags_in self.now }
    {
        Flags {
            n: self.n,
            z: self.z,
            c: self.c,
            v: self.v,
        }
    }

    /// Sets the four flags.
    pub(crate) fn set_flags(&mut self, flags: Flags)
        ensures { self.new ≡ record self.old { n = flags.n; z = flags.z; c = flags.c; v = flags.v } }
    {
        self.n = flags.n;
        self.z = flags.z;
        self.c = flags.c;
        self.v = flags.v;
    }
}

/// The value of a register.
pub(crate) fn register(regs: &[u32; 16], at: u8) -> u32
    ensures { result ≡ registers_of regs.now at }
{
    // Each register of an instruction is below 16.
    regs.get(usize::from(at)).copied().unwrap_or(0)
}

/// What an instruction reads of a register: of pc, its own address plus 8.
pub(crate) fn value_of(regs: &[u32; 16], at: u8) -> u32
    ensures { result ≡ value_of (registers_of regs.now) at }
{
    if at == PC {
        register(regs, PC).wrapping_add(8)
    } else {
        register(regs, at)
    }
}

/// The address behind the instruction.
pub(crate) fn next_address(regs: &[u32; 16]) -> u32
    ensures { result ≡ next_address (registers_of regs.now) }
{
    register(regs, PC).wrapping_add(4)
}

/// Sets a register.
pub(crate) fn set(regs: &mut [u32; 16], at: u8, value: u32)
    requires { at < 16 }
    ensures { registers_of regs.new ≡ replaced (registers_of regs.old) at value }
{
    regs[usize::from(at)] = value;
}
