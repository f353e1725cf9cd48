// Layer 3: the checker of step records.
#![tactic(auto)]

// What it answers.
pub mod verdict;

// One record judged.
pub mod check;
