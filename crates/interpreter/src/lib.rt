// Layer 2: the machine.
#![tactic(auto)]

// What an instruction reads, and what it does.
pub mod effect;

// Formats and codes (isa.rs).
pub mod isa;

// sign_extend (utils), and what else the operations share.
mod alu;
pub mod bits;

// handle_hi_lo.
mod hi_lo;

// Loads and stores as functions of eight bytes (execute_i_type).
mod loads;
mod stores;

// handle_branch and handle_jump.
mod branches;

// The kernel (cpu.rs): an instruction as a pure function; and the frequent instructions of it, for runs.
mod access;
pub mod cpu;
mod frequent;
mod key;

// What the machine holds, and a state's bytes.
pub mod layout;
mod machine;
pub mod state;

// System calls (linux.rs), and what they work on.
pub mod hint;
pub mod input;
pub mod linux;
mod syscall;
pub mod utf8;

// One step, its record, the step repeated, and the step that a record shows.
pub mod record;
pub mod run;
pub mod shown;
pub mod step;

// What a run does quickly: many plain instructions in a row, on the page that was looked up last.
mod quick;
mod window;
