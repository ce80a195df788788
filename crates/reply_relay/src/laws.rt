// Laws of replies in pieces, for whoever stands on this crate.
ghost use Rattle.std.specs.Prelude.{◌≡◌, ◌<◌, ℕ, List, [], ◌++◌, Some, fold, length, min, take};
ghost use Rattle.mx_base.specs.declared.tag.Tag.{Tag};
ghost use Rattle.mx_base.specs.Fields.{AreBytes};
ghost use Rattle.reply_track.specs.Runs.{run};
ghost use Rattle.reply_track.specs.Tracking.{Sought, started};
ghost use Rattle.packet_frame.specs.Packets.{spellings};
ghost use Rattle.reply_relay.specs.declared.asked.Wanted.{Wanted};
ghost use Rattle.reply_relay.specs.declared.cell.Spot.TheVariants.{First};
ghost use Rattle.reply_relay.specs.declared.relay.Relay.{Relay};
ghost use Rattle.reply_relay.specs.Cells.{new_cell, byte_taken, fourth};
ghost use Rattle.reply_relay.specs.Relays.{asking, reply_to, relay_taken, hears};
ghost use Rattle.reply_relay.specs.Relaying.{IsRelaying, IsRelayed, ReadsAs};

/// With the first byte of a command its reply is due, of which nothing was read.
pub fn replies_begin()
    ensures { (tag : Tag) (packets : List ℕ) (wanted : Wanted) (n : ℕ) → 0 < n → IsRelaying (reply_to packets wanted) [] [] (relay_taken n (asking tag packets (Some wanted))) }
{}

/// What the client got for the pieces of a reply, one behind the other, is the reply with the client's own ids, for any cut of it; and
/// a fault is told at the first byte with which no reply goes on.
pub fn pieces_are_the_reply()
    ensures { (sought : Sought) (read passed piece : List ℕ) (relay : Relay) → AreBytes piece → IsRelaying sought read passed relay → IsRelayed sought read passed piece (hears piece relay).told (hears piece relay).relay (hears piece relay).piece }
{}

/// Whoever reads all the bytes that were read of the reply, as the law does with the link's unread ones, finds that it goes on, ends or
/// fails as the pieces told, whatever ids the client has.
pub fn pieces_are_read_as_one()
    ensures { (sought : Sought) (read passed piece : List ℕ) (relay : Relay) (client number : ℕ) → IsRelaying sought read passed relay → ReadsAs (length piece) (length (read ++ piece)) (hears piece relay).told (run (started (record sought { client = client; number = number })) (read ++ piece)) }
{}

/// Behind a whole answer, in whatever pieces it came, what is kept is the begin of its fourth payload, and it is known how many there
/// are, up to six.
pub fn cells_are_read()
    ensures { (first : ℕ) (payloads : List (List ℕ)) → fold byte_taken new_cell (spellings first payloads) ≡ record { spot = First; messages = min (length payloads) 6; text = take 30 (fourth payloads) } }
{}
