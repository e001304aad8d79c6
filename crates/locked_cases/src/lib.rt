//! What the subcommands `lock`, `lockcheck` and `check` read, and their output.
#![tactic(auto)]

mod built;
mod chain_input;
mod check;
mod holds;
mod input;
mod lock;
mod queue;
mod refused;

pub use chain_input::{ChainInput, WrittenChain, WrittenEntry, WrittenSignature, read_chain_input};
pub use check::check_input;
pub use holds::chain_holds;
pub use input::{CheckInput, LockInput, read_check_input, read_lock_input};
pub use lock::lock_cases;
pub use queue::Queue;
pub use refused::{Cause, Refused};
