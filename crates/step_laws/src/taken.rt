// Messages are taken up.
ghost use Rattle.std.specs.Prelude.{◌≡◌, ◌≤◌, ℕ, Bool, List, Some, [], ◌∷◌, false, length, suc, true};
ghost use Rattle.mx_base.specs.declared.names.LinkId.{LinkId};
ghost use Rattle.mx_wire.specs.Log.{link_of};
ghost use Rattle.mx_wire.specs.declared.entry.Entry.{Entry};
ghost use Rattle.private_model.specs.Names.{ClientNo};
ghost use Rattle.private_model.specs.Story.{Happening};
ghost use Rattle.private_model.specs.View.{Setup, View};
ghost use Rattle.log_story.specs.Clients.{client_goes_on, clients_go_on, concerns, taken_up};
ghost use Rattle.log_story.specs.Owed.{messages, name_of};
ghost use Rattle.log_story.specs.Plan.{Plan, gives_up};
ghost use Rattle.log_story.specs.Tale.{Client, Tale, counted, tell, view_of, with_client};
ghost use Rattle.step_laws.specs.Freed.{freed_in};
ghost use Rattle.step_laws.specs.Seats.{IsSeated, clients_of, is_its, seats};
ghost use Rattle.step_laws.specs.Taken.{ArePassedBut, AreSingle, GivesUpNone, IsAsItWas, IsIdle, IsPassed, IsSingle, SparesOthers};
ghost use Rattle.step_laws.specs.Taken.{all_taken, gone_on, is_called, next_made, next_of, taken_to, touched_client, wakes};

/// Clients that aren't called, or whose next message isn't up, may be passed over.
pub fn goes_on_among()
    ensures { (setup : Setup) (plan : Plan) (view : View) (e : Entry) (called : ClientNo → Bool)
        (tale : Tale)
        → AreSingle plan called → ArePassedBut setup plan view e called tale
        → clients_go_on setup plan view e tale
        ≡ gone_on setup plan view e (clients_of called tale) tale }
{}

/// So it is of one client, and where there is none nothing is taken up.
pub fn goes_on_one()
    ensures one { (setup : Setup) (plan : Plan) (view : View) (e : Entry) (client : Client)
        (tale : Tale)
        → IsSeated tale client → AreSingle plan (is_its client)
        → ArePassedBut setup plan view e (is_its client) tale
        → clients_go_on setup plan view e tale ≡ client_goes_on setup plan view e tale client }
    ensures none { (setup : Setup) (plan : Plan) (view : View) (e : Entry) (tale : Tale)
        → ArePassedBut setup plan view e (λ c. false) tale
        → clients_go_on setup plan view e tale ≡ tale }
{}

/// A client that is called takes up what it can; one that isn't, or whose next message isn't up, nothing.
pub fn goes_on_alone()
    ensures called { (setup : Setup) (plan : Plan) (view : View) (e : Entry) (client : Client)
        (tale : Tale)
        → is_called plan tale.moment view e client ≡ true
        → client_goes_on setup plan view e tale client ≡ all_taken setup plan client tale }
    ensures passed { (setup : Setup) (plan : Plan) (view : View) (e : Entry) (client : Client)
        (tale : Tale)
        → IsPassed setup plan view e tale client
        → client_goes_on setup plan view e tale client ≡ tale }
{}

/// Unless the router is woken, a client is called only by an entry of its own link or of one that carries a session of its, or where its
/// last message is given up.
pub fn called_for_a_cause()
    ensures { (plan : Plan) (moment : ℕ) (view : View) (e : Entry) (client : Client)
        → wakes e ≡ false
        → ((link : LinkId) → link_of e ≡ Some link → concerns view client link ≡ false)
        → gives_up plan moment (name_of client client.taken) ≡ false
        → is_called plan moment view e client ≡ false }
{}

/// Message by message: the next one that is up, until none is, or none is left.
pub fn takes_one_by_one()
    ensures next { (setup : Setup) (plan : Plan) (most : ℕ) (client : Client) (tale other : Tale)
        → next_made setup plan client tale ≡ Some other
        → taken_up (suc most) setup plan client tale
        ≡ taken_up most setup plan (next_of client) (with_client (next_of client) other) }
    ensures last { (setup : Setup) (plan : Plan) (most : ℕ) (client : Client) (tale : Tale)
        → IsIdle setup plan tale client → taken_up most setup plan client tale ≡ tale }
    ensures all { (setup : Setup) (plan : Plan) (client : Client) (tale : Tale)
        → length (messages plan client) ≤ client.taken → IsIdle setup plan tale client }
{}

/// What one client takes up leaves links, what is held of sessions and what was read, and of other clients all.
pub fn taking_spares()
    ensures once { (setup : Setup) (plan : Plan) (whose : ClientNo → Bool) (client : Client)
        (tale other : Tale)
        → whose client.number ≡ true → IsSingle plan client
        → next_made setup plan client tale ≡ Some other → SparesOthers setup whose tale other }
    ensures seat { (setup : Setup) (whose : ClientNo → Bool) (client : Client) (tale : Tale)
        → whose client.number ≡ true → SparesOthers setup whose tale (with_client client tale) }
    ensures all { (setup : Setup) (plan : Plan) (whose : ClientNo → Bool) (most : ℕ)
        (client : Client) (tale : Tale)
        → AreSingle plan whose → whose client.number ≡ true
        → SparesOthers setup whose tale (taken_up most setup plan client tale) }
    ensures goes { (setup : Setup) (plan : Plan) (whose : ClientNo → Bool) (view : View) (e : Entry)
        (client : Client) (tale : Tale)
        → AreSingle plan whose → whose client.number ≡ true
        → SparesOthers setup whose tale (client_goes_on setup plan view e tale client) }
    ensures along { (setup : Setup) (whose : ClientNo → Bool) (old mid new : Tale)
        → SparesOthers setup whose old mid → SparesOthers setup whose mid new
        → SparesOthers setup whose old new }
{}

/// The client itself stands among the clients as it was, but for how many of its messages were taken up.
pub fn taking_seats()
    ensures once { (setup : Setup) (plan : Plan) (client next : Client) (tale other : Tale)
        → next.number ≡ client.number → IsSeated tale client
        → next_made setup plan client tale ≡ Some other → IsSeated (with_client next other) next }
    ensures all { (setup : Setup) (plan : Plan) (most : ℕ) (client : Client) (tale : Tale)
        → IsSeated tale client
        → seats (taken_up most setup plan client tale) client.number
        ≡ taken_to most setup plan client tale ∷ [] }
{}

/// So whether another client's next message is up, and what it asks for, stays as it was; then who takes up nothing goes on so.
pub fn others_stay()
    ensures others { (setup : Setup) (plan : Plan) (whose : ClientNo → Bool) (old new : Tale)
        (client : Client)
        → SparesOthers setup whose old new → whose client.number ≡ false
        → IsAsItWas setup plan old new client }
    ensures idle { (setup : Setup) (plan : Plan) (old new : Tale) (client : Client)
        → IsAsItWas setup plan old new client → IsIdle setup plan old client
        → IsIdle setup plan new client }
{}

/// And so it stays as something happens that doesn't touch the client, as links are given back, and at the next moment unless a message
/// of its is given up.
pub fn happenings_leave()
    ensures told { (setup : Setup) (plan : Plan) (client : Client) (e : Happening) (tale : Tale)
        → touched_client (view_of setup tale) e client.number ≡ false
        → IsAsItWas setup plan tale (tell e tale) client }
    ensures freed { (setup : Setup) (plan : Plan) (client : Client) (links : List LinkId) (tale : Tale)
        → IsAsItWas setup plan tale (freed_in setup plan links tale) client }
    ensures counts { (setup : Setup) (plan : Plan) (client : Client) (tale : Tale)
        → GivesUpNone plan (suc tale.moment) client
        → IsAsItWas setup plan tale (counted tale) client }
{}
