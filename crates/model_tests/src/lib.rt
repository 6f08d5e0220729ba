//! Tests of `system_model`, `system_tables`, `system_maker`, `load_model` and `report_text`, by what they give to their callers.
#![tactic(auto)]

#[cfg(test)]
mod of_load_model;
#[cfg(test)]
mod of_report_text;
#[cfg(test)]
mod of_system_maker;
#[cfg(test)]
mod of_system_model;
#[cfg(test)]
mod of_system_tables;
