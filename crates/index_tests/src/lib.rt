//! Tests of `outage_table`, `analytic_index`, `capacity_credit` and `index_text`, by what they give to their callers.
#![tactic(auto)]

#[cfg(test)]
mod of_analytic_index;
#[cfg(test)]
mod of_capacity_credit;
#[cfg(test)]
mod of_index_text;
#[cfg(test)]
mod of_outage_table;
#[cfg(test)]
mod systems;
