//! Term nets: values under keys, so that a look-up meets only the keys whose words agree with a term.
#![tactic(auto)]

mod cursor;
mod held;
mod items;
mod leaves;
mod lookup;
mod mode;
mod net;
mod node;
mod pruning;
mod rank;
mod ranks;
mod steps;
mod symbol;
mod tree;
mod word;

pub use cursor::Cursor;
pub use net::Net;
pub use rank::Rank;
pub use steps::Steps;
