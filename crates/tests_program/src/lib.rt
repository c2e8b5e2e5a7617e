//! Tests of the program's lines, run on their code: scripts, misuses, texts and statuses, and reads and writes that
//! fail.
#![tactic(auto)]

#[cfg(test)]
mod program;
