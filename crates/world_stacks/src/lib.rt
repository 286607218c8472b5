//! The stacks of core functions in a run, and the parts of a run that move them (Core 2.0, section 4.4; Component Model, CanonicalABI.md,
//! `canon lift`, `canon resource.drop`; Explainer.md, "Instance Definitions").
//!
//! A stack has to be spent: it runs, waits or is given up. `Stacks` has those of all tasks, and each function takes one out, and puts one
//! back or gives it up before it looks at anything else. The one clause of a function says what it makes of what is kept and of the
//! stacks. Where core code runs, it names what the run came to, and then says what follows. A stack that does not stand, or words that
//! do not fit, are an answer of code (`Stop::Stuck`), to which the machine never comes.
//!
//! - `host_call`: a call at which a stack waits; `top`, `pile`, `stacks`: the acting stack of a task, with those under it, and those of all
//!   tasks
//! - `addresses`: core functions and memories in the store
//! - `starting`: stacks that begin and that go on, with words that are tested; `moving`: those of a task
//! - `running`: the acting stack runs
//! - `externals`, `instantiating`: component instances that begin, and core instances that are made
//! - `exempt`: calls that are answered also where an instance may not be left; `post_returning`: post-returns
//! - `names`: the names of traps
#![tactic(auto, using(world_parts::proofs::Thens::then_gives, world_parts::proofs::Thens::then_traps, world_parts::proofs::Thens::then_spent, world_parts::proofs::Thens::then_stuck, crate::proofs::Givens::given_some, crate::proofs::Givens::given_none))]

mod addresses;
mod exempt;
mod externals;
mod host_call;
mod instantiating;
mod moving;
mod names;
mod pile;
mod post_returning;
mod running;
mod stacks;
mod starting;
mod top;

pub use addresses::{func_address, memory_of, realloc_of};
pub use exempt::exempt_answer;
pub use host_call::HostCall;
pub use instantiating::instantiate;
pub use moving::{go_on, start_on};
pub use names::core_name;
pub use pile::Pile;
pub use post_returning::post_return;
pub use running::run_on;
pub use stacks::Stacks;
pub use starting::{are_words, call_of, start_with};
