// Links are given back and lost, clients leave, and statements are given up: the tables stand for the tale.

mod frames;
mod given;
mod leaving;
mod links;

pub use frames::{
    carried_homes, clients_are_known, clients_at_stay, clients_stay, lawful_homes,
    lawful_statements, rows_of_others_stay, same_stands, servers_stay, statements_are_in_work,
};
pub use given::{counted_stands, given_up_alone};
pub use leaving::{left_is_seated, left_stands};
pub use links::{forgotten_stands, freed_stands, lost_stands};
