//! The program `viewstate`: its modes, its lines and their replies, and the loop that serves them.
#![tactic(auto)]

mod decimal;
mod line_reader;
mod line_writer;
pub mod mode;
pub mod network;
pub mod program;
pub mod resolver;
pub mod resolver_line;
mod resolver_text;
mod rounds;
pub mod serve_error;
mod session;
mod texts;
pub mod voter;
mod voter_call;
pub mod voter_line;
mod voter_text;
mod words;
