// Where a session stands, as clients want it and as links were told.
use mx_base::Bytes;
use session_vars::Settings;

/// The schema and the settings of a session. The schema is empty where none is chosen.
#[derive(Drop)]
pub struct Place {
    pub schema: Bytes,
    pub settings: Settings,
}

/// What a link was told since its login or its last reset. Of the schema nothing is known after a reset.
#[derive(Drop)]
pub struct Told {
    pub schema: Option<Bytes>,
    pub settings: Settings,
}
