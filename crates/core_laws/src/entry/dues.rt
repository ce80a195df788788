// What the router writes to clients.
ghost use Rattle.std.specs.Prelude.{◌≡◌, ◌⊎◌, ◌≤◌, ℕ, All, [], ◌∷◌, ◌++◌, false, length, take, true};
ghost use Rattle.mx_wire.specs.Log.{Log, written_of};
ghost use Rattle.mx_wire.specs.declared.entry.Entry.{Entry};
ghost use Rattle.client_seat.specs.Stands.{Known, due_so_far};
ghost use Rattle.log_story.specs.Headline.{WritesDue, tale_of};
ghost use Rattle.log_story.specs.Honest.{IsFront};
ghost use Rattle.log_story.specs.Owed.{due_bytes, due_until, messages};
ghost use Rattle.log_story.specs.Tale.{Client};
ghost use Rattle.core_tables.specs.declared.client.Client as rows;
ghost use Rattle.core_stands.specs.Clients.{IsClient};
ghost use Rattle.core_stands.specs.Grounds.{Ground};
ghost use Rattle.core_laws.specs.entry.Dues.{AreSilent, AreWrittenTo, Continues, EndsSaying, IsCome, IsGrown, IsLeft, IsToldAll, IsWrittenTo, StaysOver, WritesTo, due_on};

/// At a moment at which what was written to each client is due to it, the log's bytes are.
pub fn dues_are_written()
    ensures { (g : Ground) (log : Log) → g.tale ≡ tale_of g.setup g.plan log → AreSilent g → AreWrittenTo g log
        → WritesDue g.setup g.plan log }
{}

/// So it is behind an entry, where each client came, or is due what it was due and maybe more, and what the entry writes goes on with
/// what was due; as bytes do that stand first in what is to be written by the client's row.
pub fn dues_go_on()
    ensures each { (old new : Ground) (log : Log) (e : Entry) → AreWrittenTo old log → WritesTo old log e
        → All (λ (client : Client). IsGrown old new e client ⊎ IsCome log e client) new.tale.clients
        → AreWrittenTo new (log ++ e ∷ []) }
    ensures by_row { (g : Ground) (log : Log) (client : Client) (row : rows.Client) (count : ℕ) → IsClient g client row
        → g.fresh client.number ≡ false → IsWrittenTo g log client
        → IsFront (written_of client.link log ++ take count row.desk.seat.outbox.due) (due_on g client) }
{}

/// A client that says more, of which more messages are taken up, and whose answers stay, is due what it was due, and maybe more; also with
/// an error behind all, and with a last word, as it ends. One that ended is due what it was, and maybe more if there is no last word to it.
pub fn dues_grow()
    ensures so_far { (x y : Known) (old new : Client) → Continues x y old new → IsFront (due_so_far x old) (due_so_far y new) }
    ensures until { (x y : Known) (old new : Client) → Continues x y old new
        → IsFront (due_so_far x old) (due_until y.view.replies y.plan y.moment new) }
    ensures ended { (x y : Known) (old new : Client) → Continues x y old new → EndsSaying x y old new
        → IsFront (due_so_far x old) (due_bytes y.view.replies y.plan y.moment new) }
    ensures over { (x y : Known) (client : Client) → StaysOver x y client
        → IsFront (due_bytes x.view.replies x.plan x.moment client) (due_bytes y.view.replies y.plan y.moment client) }
{}

/// A client that stands as it stood is due what it was due, and maybe more. By its row no more of its messages were taken up than came, and
/// where it was told a last word all were answered.
pub fn others_are_due_more()
    ensures grown { (old new : Ground) (e : Entry) (client : Client) → IsLeft old new e client → IsGrown old new e client }
    ensures within { (g : Ground) (client : Client) (row : rows.Client) → IsClient g client row → g.over client.number ≡ false
        → client.taken ≤ length (messages g.plan client) }
    ensures told { (g : Ground) (client : Client) (row : rows.Client) → IsClient g client row → g.over client.number ≡ true
        → IsToldAll g client }
{}
