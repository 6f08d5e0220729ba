//! Tests of `outage_chronology`, `storage_state` and `sample_run`, by what they give to their callers.
#![tactic(auto)]

#[cfg(test)]
mod of_outage_chronology;
#[cfg(test)]
mod of_sample_run;
#[cfg(test)]
mod of_storage_state;
