//! Tests of `zone_network`, `transfer_flow`, `cut_certificate` and `hour_dispatch`, by what they give to their callers.
#![tactic(auto)]

#[cfg(test)]
mod networks;
#[cfg(test)]
mod of_cut_certificate;
#[cfg(test)]
mod of_hour_dispatch;
#[cfg(test)]
#[tactic(auto, using(transfer_flow::proofs::Laws::no_flow_within))]
mod of_transfer_flow;
#[cfg(test)]
mod of_zone_network;
