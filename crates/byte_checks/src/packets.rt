// Packets, and the payloads of logins, commands and replies. What a reader reads stands above its function.
mod client;
mod command;
mod command_table;
mod framing;
mod login;
mod number;
mod password;
mod reply;
mod rewrite;
mod server;
mod show;
mod steps;
mod table;
mod text;
mod track;

use check_lines::Fields;

/// Answers a case of this room.
pub fn read(fields: &mut Fields<'_>) {
    match fields.case.reader {
        "put_lenenc" => number::put(fields),
        "framer" => framing::feed(fields),
        "payloads_of" => framing::join(fields),
        "write_message" => framing::write(fields),
        "write_ok" => reply::ok(fields),
        "write_err" => reply::err(fields),
        "write_eof" => reply::eof(fields),
        "write_table" => table::write(fields),
        "track" => track::track(fields),
        "is_lone_reply" => reply::is_lone(fields),
        "sha1" => password::digest(fields),
        "answer" => password::answer(fields),
        "check" => password::check(fields),
        "parse" => command::parse(fields),
        "statement_of" => command::statement_of(fields),
        "has_no_reply" => command::has_no_reply(fields),
        "command" => command_table::parse(fields),
        "command_row" => command_table::row(fields),
        "write_switch" => rewrite::switch(fields),
        "greeted" | "told" => client::serve(fields),
        "backend" => server::log_in(fields),
        reader if reader.starts_with("get_") => number::get(fields),
        reader if reader.starts_with("rewrite_") => rewrite::again(fields),
        _ => login::read(fields),
    }
}
