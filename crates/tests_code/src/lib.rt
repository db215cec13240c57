//! Tests of trees, their fusions, states, nestings, steps and candidates, of codes, layouts, boxes and blocks, of walks through
//! code, of windows, and of the arrays and takings of a run.
#![tactic(auto)]

#[cfg(test)]
mod arrays;
#[cfg(test)]
mod block;
#[cfg(test)]
mod blockwise;
#[cfg(test)]
mod candidates;
#[cfg(test)]
mod code;
#[cfg(test)]
mod code_plain_run;
#[cfg(test)]
mod fusion;
#[cfg(test)]
mod given;
#[cfg(test)]
mod layout;
#[cfg(test)]
mod nesting;
#[cfg(test)]
mod operand_windows;
#[cfg(test)]
mod operands;
#[cfg(test)]
mod result;
#[cfg(test)]
mod states;
#[cfg(test)]
mod steps;
#[cfg(test)]
mod strides;
#[cfg(test)]
mod tail;
#[cfg(test)]
mod takings;
#[cfg(test)]
mod tree;
#[cfg(test)]
mod walk;
#[cfg(test)]
mod windows;
