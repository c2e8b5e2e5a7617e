//! The next steps of a network's hosts: the premises of `hosts_agree` stay true.
#![tactic(auto)]

pub mod steps;
