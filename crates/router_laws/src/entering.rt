// A router goes on with entries of clients' own links.

mod comes;
mod leaves;
mod speaks;

pub use comes::{comes_router, turned_away_router};
pub use leaves::{leaves_again_router, leaves_at_once_router, leaves_going_router};
pub use speaks::speaks_router;
