// What administrators say; configurations, tables of servers and picks of them, recordings, transcripts, plays of a recording, and files and a sink in memory.
mod admin;
mod answers;
mod calls;
mod configs;
mod held;
mod plays;
mod pool;
mod recordings;
mod rows;
mod servers;
mod transcripts;
mod words;
mod world;

use crate::packets;
use check_lines::Fields;

/// Answers a case of this room, or of the packets.
pub fn read(fields: &mut Fields<'_>) {
    match fields.case.reader {
        "config" => configs::config(fields),
        "admin" => admin::admin(fields),
        "admin_from" => admin::admin_from(fields),
        "admin_command" => admin::admin_command(fields),
        "rows" => configs::rows(fields),
        "rules" => configs::rules(fields),
        "lists" => configs::lists(fields),
        "servers" => servers::servers(fields),
        "like_servers" => servers::like_servers(fields),
        "number" => servers::number(fields),
        "server" => servers::server(fields),
        "pool" => pool::follow(fields),
        "recording" => recordings::recording(fields),
        "entries" => recordings::entries(fields),
        "transcript" => transcripts::transcript_of(fields),
        "play" => plays::play(fields),
        "files" => held::files(fields),
        "sink" => held::sink(fields),
        _ => packets::read(fields),
    }
}
