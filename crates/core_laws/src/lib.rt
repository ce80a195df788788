//! Links are given back and lost, clients leave, and statements are given up: the tables stand for the tale.
//! Clients come and speak, are written to and forgotten: the tables stand for the tale.
//! A client's message that came up is taken up: the tables stand for the tale.
//! Bytes are read on links to servers: the tables stand for the tale.
//! What goes to links to servers next, and as it is written: the tables stand for the tale.
//! What an entry of the log makes of the tables: they stand for the tale of the log with it.
//! Entries of clients: the tables stand for the tale of the log with them, and rest.
//! Entries of links to servers: the tables stand for the tale of the log with them, and rest.
#![tactic(auto)]

pub mod arrival;
pub mod clients;
pub mod entry;
pub mod hearing;
pub mod links;
pub mod parting;
pub mod taking;
pub mod writing;
