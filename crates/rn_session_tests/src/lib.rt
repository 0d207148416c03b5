//! Tests of `rn_session` on programs that are too large for its table.
#![tactic(auto)]

#[cfg(test)]
mod limit_tests;
