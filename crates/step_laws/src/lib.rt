//! What an entry of the log makes of its tale, by any plan: it is as if the links and clients that it doesn't concern weren't there.
#![tactic(auto)]

mod always;
mod ended;
mod freed;
mod spared;
mod steps;
mod taken;
