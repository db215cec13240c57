//! The check of plans: whether a plan shows that its fusion is least, or the first rule that it breaks (after Lam et al. 1999).
#![tactic(auto)]

mod bound;
mod branch;
mod cover;
mod floors;
mod gather;
mod groups;
mod joint;
mod kept;
mod operands;
mod pairs;
mod parts;
mod reach;
mod root;
mod rules;
mod runs;
mod steps;
mod sums;
mod tables;
mod tops;
mod uppermost;
mod uppers;
mod verdict;

pub use rules::check;
pub use verdict::Verdict;
