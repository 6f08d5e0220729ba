//! Tests of `campaign_core`, `turn_book`, `campaign`, `campaign_workers` and `campaign_console`, by what they give to their callers.
#![tactic(auto)]

#[cfg(test)]
mod of_campaign;
#[cfg(test)]
mod of_campaign_console;
#[cfg(test)]
mod of_campaign_core;
#[cfg(test)]
mod of_campaign_workers;
#[cfg(test)]
mod of_turn_book;
