// What is decided at one entry of the log, and that each plan that has it has what the laws of entries ask of plans.

mod counting;
mod links;
mod plans;
mod records;
mod routers;

pub use counting::{counts_go_on, counts_stay};
pub use links::{links_rise, opens_go_on, tales_follow};
pub use plans::{
    answers_are_kept, ends_go_on, plans_are_silent, plans_are_so, quiet_plans, ungiven_are_in_work,
};
pub use records::{decisions_are_more, decisions_are_recorded, first_recorded, speech_goes_on};
pub use routers::{
    first_router, routers_are_roomier, routers_change, routers_go_on, routers_learn, routers_load,
    routers_note, routers_stood, routers_went,
};
