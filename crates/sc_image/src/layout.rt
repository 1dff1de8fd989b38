//! Where things lie in memory, and the registers that have a use of their own.

ghost use Rattle.sc_base.specs.Prelude.{most_compartments};
ghost use Rattle.sc_image.specs.Prelude.{code_start, comp_of_code, data_start, stack_top, zone_start};
ghost use Rattle.std.specs.Prelude.{◌≡◌, ◌<◌};

use sc_event::CompId;
use sc_zone::ZONE_WORDS;

/// Where the code of the first compartment begins.
pub const CODE: u32 = 0x0100_0000;

/// Where the data of the first compartment begin, which are the stack and then the globals.
pub const DATA: u32 = 0x1000_0000;

/// From one compartment's addresses to the next's, and so the most bytes of code.
pub const STRETCH: u32 = 0x10_0000;

/// How many bytes a stack has.
pub const STACK_SIZE: u32 = 0x1_0000;

/// The most bytes of globals, which end where the zone begins.
pub const MOST_GLOBALS: u32 = 458_752;

/// From where a compartment's data begin to where its zone does.
pub const ZONE: u32 = 0x8_0000;

/// How many bytes a zone has.
pub const ZONE_SIZE: u32 = 4 * ZONE_WORDS;

/// The address that `main` returns to, and every function that another compartment called.
pub const GATE: u32 = 0x100;

/// Register ra, which holds the address that a function returns to.
pub const RA: usize = 1;

/// Register sp, the stack pointer.
pub const SP: usize = 2;

/// Register a0, which holds a result or the first argument.
pub const A0: usize = 10;

/// Register a1, which holds the second argument.
pub const A1: usize = 11;

/// Register a7, which says what an environment call calls.
pub const A7: usize = 17;

/// The number in a7 of the environment's `input`.
pub const INPUT: u32 = 1;

/// The number in a7 of the environment's `output`.
pub const OUTPUT: u32 = 2;

/// The number in a7 of an allocation of a0 times a1 words.
pub const ALLOC: u32 = 3;

/// The number in a7 of a free of the block at address a0.
pub const FREE: u32 = 4;

/// The address where the compartment's code begins.
pub fn code_start(comp: CompId) -> u32
    ensures { result ≡ code_start comp }
{
    CODE + comp.number() as u32 * STRETCH
}

/// The address where the compartment's data begin.
pub fn data_start(comp: CompId) -> u32
    ensures { result ≡ data_start comp }
{
    DATA + comp.number() as u32 * STRETCH
}

/// The address of the top of the compartment's stack.
pub fn stack_top(comp: CompId) -> u32
    ensures { result ≡ stack_top comp }
{
    data_start(comp) + STACK_SIZE
}

/// The address where the compartment's zone begins, if it has one.
pub fn zone_start(comp: CompId) -> u32
    ensures { result ≡ zone_start comp }
{
    data_start(comp) + ZONE
}

/// The number of the compartment in whose stretch of code an address lies. There may be none of
/// that number.
pub fn comp_of_code(address: u32) -> usize
    ensures { result ≡ comp_of_code address }
{
    (address.saturating_sub(CODE) / STRETCH) as usize
}

/// The compartment of that number.
pub fn comp_id(number: usize) -> CompId
    requires { number < most_compartments }
    ensures { result ≡ number }
{
    CompId::new(number as u8).unwrap()
}
