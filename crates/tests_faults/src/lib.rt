//! Tests of the command of which one call of its source, its sink or its host fails: each call in turn, until a run meets no failure.
#![tactic(auto)]

#[cfg(test)]
mod failing;
#[cfg(test)]
mod tables;
