// Which links stay as they were for whether they are to be given back.
ghost use Rattle.std.specs.Prelude.{◌≡◌, Bool, false, suc};
ghost use Rattle.mx_base.specs.declared.names.LinkId.{LinkId};
ghost use Rattle.mx_wire.specs.declared.entry.Entry.{Entry};
ghost use Rattle.private_model.specs.Names.{SessionName};
ghost use Rattle.private_model.specs.Story.{Happening, is_link_id};
ghost use Rattle.private_model.specs.View.{Setup};
ghost use Rattle.log_story.specs.Plan.{Plan};
ghost use Rattle.log_story.specs.Tale.{Tale, Wire, counted, link_in, tell, view_of, with_wire};
ghost use Rattle.log_story.specs.Telling.{told};
ghost use Rattle.step_laws.specs.Freed.{NoneDone, NoneDoneBut, is_done_at};
ghost use Rattle.step_laws.specs.Spared.{SparesIn, Stays, carries_of, is_given_now, may_be_freed, told_link, told_session, touched_link, touched_session};
ghost use Rattle.step_laws.specs.Steps.{told_then};

/// A link is to be given back or not by its wire, by what is known of it, and by what stands of the session that it carries: its Pin,
/// its insert id, whether it was left, and whether what is due there was given up.
pub fn as_before()
    ensures { (setup : Setup) (plan : Plan) (old new : Tale) (link : LinkId)
        → Stays setup plan old new link
        → is_done_at setup plan new link ≡ is_done_at setup plan old link }
{}

/// So a link that wasn't touched stays as it was, where it doesn't carry a session that was.
pub fn untouched_rests()
    ensures { (setup : Setup) (plan : Plan) (touched : LinkId → Bool) (whose : SessionName → Bool)
        (old new : Tale) (link : LinkId)
        → SparesIn setup touched whose old new → touched link ≡ false
        → carries_of whose (link_in setup old link).carries ≡ false
        → is_done_at setup plan new link ≡ is_done_at setup plan old link }
{}

/// What passes one by one spares what each of it spares, and more may be said to be touched.
pub fn spares_along()
    ensures along { (setup : Setup) (touched : LinkId → Bool) (whose : SessionName → Bool)
        (old mid new : Tale)
        → SparesIn setup touched whose old mid → SparesIn setup touched whose mid new
        → SparesIn setup touched whose old new }
    ensures more { (setup : Setup) (touched others : LinkId → Bool) (whose more : SessionName → Bool)
        (old new : Tale)
        → ((l : LinkId) → others l ≡ false → touched l ≡ false)
        → ((n : SessionName) → more n ≡ false → whose n ≡ false)
        → SparesIn setup touched whose old new → SparesIn setup others more old new }
{}

/// A happening touches its link, and of sessions: what becomes due the present one; a statement that goes out, and an answer that is
/// read, the one whose it is; a loss and a leave those that are left by it. Bytes on a link touch its wire.
pub fn happenings_spare()
    ensures told { (setup : Setup) (e : Happening) (tale : Tale)
        → SparesIn setup (touched_link e) (touched_session (view_of setup tale) e) tale (tell e tale) }
    ensures wire { (setup : Setup) (link : LinkId) (wire : Wire) (whose : SessionName → Bool)
        (tale : Tale)
        → SparesIn setup (λ l. is_link_id l link) whose tale (with_wire link wire tale) }
{}

/// An entry as it is told touches the link that it names, and the session whose question stands or begins there, or is lost with it.
pub fn telling_spares()
    ensures { (setup : Setup) (plan : Plan) (tale : Tale) (e : Entry)
        → SparesIn setup (told_link e) (told_session setup plan tale e) tale (told setup plan tale e) }
{}

/// At the next moment a link stays as it was, unless the statement is given up for which it is lent.
pub fn counting_rests()
    ensures { (setup : Setup) (plan : Plan) (tale : Tale) (link : LinkId)
        → is_given_now plan (suc tale.moment) (view_of setup tale)
        (link_in setup tale link).carries ≡ false
        → is_done_at setup plan (counted tale) link ≡ is_done_at setup plan tale link }
{}

/// Where no link was to be given back, only these may be as an entry was told: the link that it names, one that carries a session that
/// it touches, and one that is lent for what is given up.
pub fn telling_rests()
    ensures { (setup : Setup) (plan : Plan) (tale : Tale) (e : Entry) → NoneDone setup plan tale
        → NoneDoneBut setup plan (may_be_freed setup plan tale e) (told_then setup plan tale e) }
{}
