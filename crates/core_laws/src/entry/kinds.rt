// Entries of one kind or another.
ghost use Rattle.std.specs.Prelude.{◌≡◌, ◌||◌, ◌≤◌, ℕ, All, Bool, List, Some, false, length, suc, true, None};
ghost use Rattle.mx_base.specs.declared.names.ClientNo.{ClientNo};
ghost use Rattle.mx_base.specs.declared.names.LinkId.{LinkId};
ghost use Rattle.mx_base.specs.declared.names.Port.{Port};
ghost use Rattle.mx_base.specs.declared.tag.Tag.{Tag};
ghost use Rattle.mx_wire.specs.declared.entry.Entry.TheVariants.{Accepted, Drop, Exec, Got, Wrote};
ghost use Rattle.mx_wire.specs.declared.entry.Entry.{Entry};
ghost use Rattle.client_session.specs.Setups.{Setup as Service};
ghost use Rattle.private_model.specs.Story.{is_client, is_link_id};
ghost use Rattle.log_story.specs.Clients.{client_goes_on};
ghost use Rattle.log_story.specs.Tale as tales;
ghost use Rattle.log_story.specs.Tale.{client_hears, counted, is_to_server};
ghost use Rattle.client_seat.specs.Seats.{new_seat};
ghost use Rattle.log_story.specs.Owed.{name_of};
ghost use Rattle.log_story.specs.Plan.{gives_up};
ghost use Rattle.log_story.specs.Servers.{freed_if_done};
ghost use Rattle.stmt_map.specs.declared.client.ClientStatements.{ClientStatements};
ghost use Rattle.core_tables.specs.Arrivals.{came, written_to};
ghost use Rattle.core_tables.specs.declared.client.ClientNote.{ClientNote};
ghost use Rattle.core_tables.specs.Parting.{is_done_in};
ghost use Rattle.core_tables.specs.Tables.{IsSame, Tabled};
ghost use Rattle.core_tables.specs.declared.client.Client.{Client};
ghost use Rattle.core_stands.specs.Grounds.{AreOver, Ground, on, view_on};
ghost use Rattle.core_stands.specs.Stands.{Rests, Stands};
ghost use Rattle.core_laws.specs.arrival.Comes.{IsComing, newest};
ghost use Rattle.step_laws.specs.Freed.{NoneDone, NoneDoneBut, freed_in};
ghost use Rattle.step_laws.specs.Steps.{IsOfOne, ended_now, told_then};
ghost use Rattle.step_laws.specs.Taken.{all_taken};
ghost use Rattle.core_laws.specs.entry.Entries.{behind};
ghost use Rattle.core_laws.specs.entry.Freeing.{all_freed};
ghost use Rattle.core_laws.specs.entry.Kinds.{IsOnLink, IsQuiet, IsSpeaking, IsStill, IsUneventful};
ghost use Rattle.client_seat.specs.Numbers.{number_in};

/// An entry is counted by which nothing is given up.
pub fn counts_alone()
    ensures { (service : Service) (g : Ground) (t : Tabled) → Stands service g t → All (IsStill g) g.tale.clients
        → Stands service (on g (counted g.tale)) t }
{
    crate::parting::counted_stands();
    crate::parting::same_stands();
}

/// Then no link is to be given back by that.
pub fn counts_rest()
    ensures { (service : Service) (g : Ground) (t : Tabled) → Stands service g t → All (IsStill g) g.tale.clients
        → NoneDone g.setup g.plan g.tale → NoneDone g.setup g.plan (counted g.tale) }
{
    counts_alone();
    crate::parting::freed_stands();
}

/// An entry that tells nothing leaves the tables at rest.
pub fn quiet_entries_rest()
    ensures { (service : Service) (g : Ground) (t : Tabled) (roomy : ClientNo → Bool) (e : Entry) → Rests service g t roomy
        → IsQuiet g e → IsUneventful g → Rests service (behind g e g.over) t roomy }
{
    counts_alone();
    crate::parting::freed_stands();
}

/// So do the marks of a log: a server runs what stands on a link, or ends it.
pub fn marks_rest()
    ensures runs { (service : Service) (g : Ground) (t : Tabled) (roomy : ClientNo → Bool) (l : LinkId) → Rests service g t roomy
        → is_to_server g.tale l ≡ true → IsUneventful g → Rests service (behind g (Exec l) g.over) t roomy }
    ensures drops { (service : Service) (g : Ground) (t : Tabled) (roomy : ClientNo → Bool) (l : LinkId) → Rests service g t roomy
        → IsUneventful g → Rests service (behind g (Drop l) g.over) t roomy }
{
    counts_alone();
    crate::parting::freed_stands();
    crate::writing::marks_stay();
}

/// Bytes that were due to a client are written, which may have room again.
pub fn writes_to_clients_rest()
    ensures { (service : Service) (g : Ground) (t now : Tabled) (roomy : ClientNo → Bool) (link : LinkId) (tag : Tag) (bytes : List ℕ)
        (c : ClientNo) (row : Client) → Rests service g t roomy → t.numbers link ≡ Some c → t.clients c ≡ Some row
        → length bytes ≤ length row.desk.seat.outbox.due → IsUneventful g → IsSame now (written_to c (length bytes) t)
        → Rests service (behind g (Wrote link tag bytes) g.over) now (λ other. is_client c other || roomy other) }
{
    counts_alone();
    crate::parting::freed_stands();
    crate::arrival::clients_get();
}

/// A client comes and is served.
pub fn arrivals_rest()
    ensures { (service : Service) (g : Ground) (t now : Tabled) (roomy : ClientNo → Bool) (port : Port) (link : LinkId) (salt : List ℕ)
        (statements : ClientStatements) (note : ClientNote) → Rests service g t roomy → IsComing g port link salt
        → ((number : ℕ) → number_in statements number ≡ None) → IsUneventful g
        → gives_up g.plan (suc g.tale.moment) (name_of (newest g port link salt) 0) ≡ false
        → IsSame now (came (newest g port link salt).number link (new_seat link (newest g port link salt).number salt port service statements) note t)
        → Rests service (behind g (Accepted port link salt) g.over) now roomy }
{
    counts_alone();
    crate::parting::freed_stands();
    crate::arrival::clients_come();
}

/// Links are given back one by one, as they are named.
pub fn links_are_given_back()
    ensures { (service : Service) (g : Ground) (t : Tabled) (links : List LinkId) → Stands service g t
        → All (λ (l : LinkId). is_to_server g.tale l ≡ true) links
        → Stands service (on g (freed_in g.setup g.plan links g.tale)) (all_freed links t) }
{
    crate::parting::freed_stands();
}

/// Bytes come on a client's link: the entry is of that client alone, which takes up what it can.
pub fn entries_of_a_speaker()
    ensures one { (g : Ground) (link : LinkId) (bytes : List ℕ) (client : tales.Client) (ended : List ClientNo)
        → AreOver g → IsSpeaking g link client
        → ended_now g.plan (told_then g.setup g.plan g.tale (Got link bytes)) ≡ ended
        → IsOfOne g.setup g.plan g.tale (Got link bytes) (client_hears link bytes client) ended
        (told_then g.setup g.plan g.tale (Got link bytes)) }
    ensures takes { (g : Ground) (link : LinkId) (bytes : List ℕ) (client : tales.Client)
        → AreOver g → IsSpeaking g link client
        → client_goes_on g.setup g.plan (view_on g) (Got link bytes) (told_then g.setup g.plan g.tale (Got link bytes))
        (client_hears link bytes client)
        ≡ all_taken g.setup g.plan (client_hears link bytes client) (told_then g.setup g.plan g.tale (Got link bytes)) }
{}

/// An entry of a link to a server is of the client whose session that carries: of links that one alone may be given back as it is told.
pub fn entries_of_a_link()
    ensures { (g : Ground) (e : Entry) (l : LinkId) (client : tales.Client) (ended : List ClientNo) → IsOnLink g e l client
        → ended_now g.plan (told_then g.setup g.plan g.tale e) ≡ ended
        → IsOfOne g.setup g.plan g.tale e client ended (freed_if_done g.setup g.plan (told_then g.setup g.plan g.tale e) l) }
{}

/// Where other rows are done with their sessions as they were before, no link but this one is to be given back.
pub fn other_links_rest()
    ensures { (service : Service) (old new : Ground) (t now : Tabled) (l : LinkId) → NoneDone old.setup old.plan old.tale → Stands service old t
        → Stands service new now → new.tale.links ≡ old.tale.links
        → ((other : LinkId) → is_link_id other l ≡ false → is_done_in other now ≡ is_done_in other t)
        → NoneDoneBut new.setup new.plan (λ other. is_link_id other l) new.tale }
{
    crate::parting::freed_stands();
}
