//! The best dispatch of an hour: for a network with its storage devices the outcome that no feasible
//! dispatch beats, the hour's cut, and a chain of sets that proves it.
//!
//! One flow serves all stages: zones are served in order, the cut is taken, discharge is kept least from the
//! last device to the first, and charge is raised from the first device to the last. Each stage is a row of
//! pulls; where one falls short, the zones that it searched prove that no more can be had.
//!
//! Where each zone's supply covers its load and all that its devices may charge, that is the best, as the
//! laws of `Ample` say, and who knows it needs no dispatcher.
#![tactic(auto)]

mod charging;
mod cutting;
mod discharging;
mod dispatcher;
mod generating;
mod serving;
mod starting;

pub use dispatcher::Dispatcher;
