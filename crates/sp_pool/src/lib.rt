//! A bounded pool of found points under replacement, as CPLEX's solution pool has it.
#![tactic(auto)]

mod events;
mod lines;
mod members;
mod nodes;
mod pool_laws;
mod pools;
mod rankings;
mod serials;

pub use events::PoolEvent;
pub use members::{Member, Offered, Rule};
pub use pool_laws::{pool_is_never_overfull, worst_holds_the_best, worst_is_the_last_greatest};
pub use pools::Pool;
