// Links that a client's row has to do with are marked.
ghost use Rattle.std.specs.Prelude.{[]};
ghost use Rattle.core_says.specs.Marking.{AreMarked, IsMarkedAt, IsMarkedFor};

use client_desk::Session;
use core_tables::Client;
use link_marks::Marks;
use mx_base::LinkId;

#[tactic(auto, using(crate::proofs::Links::marked_none, crate::proofs::Links::marked_some))]
/// A link is marked, where there is one. Takes no memory.
pub fn mark_at(marks: &mut Marks, at: Option<LinkId>)
    ensures { IsMarkedAt at marks.old marks.new }
{
    match at {
        Some(link) => marks.mark(link),
        None => {}
    }
}

#[tactic(auto, using(crate::proofs::Links::marked_none_yet))]
fn mark_homes(marks: &mut Marks, sessions: &[Session])
    ensures { AreMarked [] sessions.now marks.old marks.new }
{
    for session in sessions {
        mark_at(marks, session.home);
    }
}

/// The links that a client's row has to do with are marked: its own, the one that is readied for it, and those that carry its sessions. Takes
/// no memory.
pub fn mark_row(marks: &mut Marks, row: &Client)
    ensures { IsMarkedFor row.now marks.old marks.new }
{
    mark_at(marks, Some(row.desk.seat.link));
    mark_at(marks, row.note.readied);
    mark_homes(marks, row.desk.sessions.as_slice());
}
