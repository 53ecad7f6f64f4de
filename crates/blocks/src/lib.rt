// The byte blocks in which the host kernel hands setup its arguments, and an exit its report.
#![tactic(auto)]

pub mod report;
pub mod setup;
