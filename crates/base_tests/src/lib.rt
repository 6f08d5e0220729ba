//! Tests of `ra_base`, `decimal_text`, `fixed_interval`, `sample_streams`, `sample_totals` and `result_recorders`, by what they give to their callers.
#![tactic(auto)]

#[cfg(test)]
mod of_decimal_text;
#[cfg(test)]
mod of_fixed_interval;
#[cfg(test)]
mod of_ra_base;
#[cfg(test)]
mod of_result_recorders;
#[cfg(test)]
mod of_sample_streams;
#[cfg(test)]
mod of_sample_totals;
