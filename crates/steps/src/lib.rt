// The engine in steps, over bytes: programs read and written, a job started, picked and run on. `job` exports each.
#![tactic(auto)]

mod buffers;
pub mod going;
pub mod program;
pub mod starting;
