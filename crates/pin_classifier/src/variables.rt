// The system variables that a statement names.
ghost use Rattle.std.specs.Prelude.{◌≡◌, [], option_copied};
ghost use Rattle.pin_classifier.specs.Passing.{with_variable, variables_of};

use crate::words::{is_part, is_wide_name};

// Which of these variables are named (MySQL Reference Manual, "Server System Variables").
#[derive(Clone, Copy)]
pub(crate) struct Variables {
    pub last_insert_id: bool,
    pub identity: bool,
    pub warning_count: bool,
    pub error_count: bool,
    pub pseudo_thread_id: bool,
    pub last_gtid: bool,
    // A name with bytes of other alphabets.
    pub wide: bool,
}

impl Variables {
    pub(crate) fn new() -> Self
        ensures { result ≡ variables_of [] [] }
    {
        Variables {
            last_insert_id: false,
            identity: false,
            warning_count: false,
            error_count: false,
            pseudo_thread_id: false,
            last_gtid: false,
            wide: false,
        }
    }

    // Takes the name of a system variable, where there is one.
    pub(crate) fn take(&mut self, name: Option<&[u8]>)
        ensures { self.new ≡ with_variable self.old (option_copied name.entry) }
    {
        self.last_insert_id |= is_part(name, b"last_insert_id");
        self.identity |= is_part(name, b"identity");
        self.warning_count |= is_part(name, b"warning_count");
        self.error_count |= is_part(name, b"error_count");
        self.pseudo_thread_id |= is_part(name, b"pseudo_thread_id");
        self.last_gtid |= is_part(name, b"last_gtid");
        self.wide |= is_wide_name(name);
    }
}
