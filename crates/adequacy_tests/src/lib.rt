//! Tests of the top call: what words over folders come to.
#![tactic(auto)]

#[cfg(test)]
mod answers;
#[cfg(test)]
mod consoles;
#[cfg(test)]
mod planner;
#[cfg(test)]
mod schedule;
#[cfg(test)]
mod traces;
#[cfg(test)]
mod trials;
#[cfg(test)]
mod words;
