//! What is decided at one entry of the log, and that each plan that has it has what the laws of entries ask of plans.
//! Entries at which the core does nothing: its tables stand for the longer log.
//! Entries of clients' own links: a core goes on with them.
//! Bytes come on links to servers: the core over shared links goes on with that entry of the log.
//! Entries of links to servers: from the code's steps to the core standing for the longer log.
//! The core at a wake, at an open that failed, and between entries: what it does keeps that it stands for the longer log.
//! A router goes on with entries by which nobody is called, ended or given up.
//! A router goes on with entries of clients' own links.
#![tactic(auto)]

pub mod clients;
pub mod decisions;
pub mod entering;
pub mod links;
pub mod quiet;
pub mod reading;
pub mod routers;
pub mod waits;
pub mod wakes;
