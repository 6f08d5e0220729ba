//! Workers claim shares of a campaign, run their samples and deposit what they came to. A study is a campaign
//! with one worker for each job, in rounds until its samples are enough.
#![tactic(auto)]

mod crew;
mod studies;
mod working;

pub use studies::study;
pub use working::{WorkEnd, Worked, work, work_on};
