//! How a reply ended is the same, whether a tracker of its bytes says it or its payloads are read; and so is the one number of an answer.
#![tactic(auto)]

ghost use Rattle.std.specs.Prelude.{◌≡◌, ℕ, List, fold};
ghost use Rattle.packet_frame.specs.Packets.{spellings};
ghost use Rattle.reply_relay.specs.Cells.{byte_taken, cell_number, new_cell};
ghost use Rattle.reply_track.specs.Grammar.{IsReply};
ghost use Rattle.reply_track.specs.declared.reply.ReplyEnd.{ReplyEnd};
ghost use Rattle.reply_track.specs.declared.reply.ReplyKind.{ReplyKind};
ghost use Rattle.server_rule.specs.Replies.{one_number, reply_end};
ghost use Rattle.reply_ends.specs.Ends.{end_read, is_of_prepare};

use reply_relay::cells_are_read;

/// For each reply of the protocol: what a tracker hands on as its end is what the law of servers reads off its payloads.
pub fn ends_are_read()
    ensures { (kind : ReplyKind) (payloads : List (List ℕ)) (end : ReplyEnd) → IsReply kind payloads end → end_read end ≡ reply_end (is_of_prepare kind) payloads }
{}

/// The number that is read of a whole answer in pieces is the one that the law of servers reads off its payloads.
pub fn numbers_are_read()
    ensures { (first : ℕ) (payloads : List (List ℕ))
        → cell_number (fold byte_taken new_cell (spellings first payloads)) ≡ one_number payloads }
{
    cells_are_read();
}
