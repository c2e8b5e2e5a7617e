//! Tests of the libraries below the member, run on their code: worked rows, each refusal by name, and settings at their
//! limits.
#![tactic(auto)]

#[cfg(test)]
mod codec;
#[cfg(test)]
mod replay;
#[cfg(test)]
mod resolver;
#[cfg(test)]
mod round;
#[cfg(test)]
mod sorted;
#[cfg(test)]
mod types;
