// What a step asks for.
use check_lines::Answer;

/// What a step asks for (client/server protocol, "Command Phase").
#[derive(Clone, Copy)]
pub enum Verb {
    /// COM_QUERY.
    Query,
    /// COM_INIT_DB.
    Choose,
    /// COM_FIELD_LIST.
    Fields,
    /// COM_STMT_PREPARE.
    Prepare,
    /// COM_STMT_EXECUTE of what was prepared last.
    Execute,
    /// COM_RESET_CONNECTION.
    Reset,
    /// COM_QUIT.
    Quit,
}

impl Verb {
    /// The verb of this name, or a query.
    pub fn named(answer: &mut Answer, name: &str) -> Verb {
        match name {
            "" => Verb::Query,
            "init_db" => Verb::Choose,
            "field_list" => Verb::Fields,
            "prepare" => Verb::Prepare,
            "execute" => Verb::Execute,
            "reset" => Verb::Reset,
            "quit" => Verb::Quit,
            _ => {
                answer.bad();
                Verb::Query
            }
        }
    }
}
