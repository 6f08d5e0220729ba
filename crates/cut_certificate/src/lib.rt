//! A checker of what an hour's dispatch claims: that its total unserved load is the least, and that its
//! outcome is the best.
//!
//! `check_cut` weighs one set of zones, `check_chain` one set for each component. Whoever found the sets
//! isn't trusted: a yes is proved to imply the claim.
#![tactic(auto)]

mod balances;
mod certificates;
mod chains;
mod cuts;
mod feasible;
mod flow_lists;
mod outcome_sums;
mod rows;
mod sums;

pub use certificates::check_chain;
pub use chains::Chain;
pub use cuts::check_cut;
pub use flow_lists::Flows;
