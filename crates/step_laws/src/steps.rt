// What an entry makes of a tale.
ghost use Rattle.std.specs.Prelude.{◌≡◌, All, Bool, List, [], false, filter, true};
ghost use Rattle.mx_wire.specs.declared.entry.Entry.{Entry};
ghost use Rattle.private_model.specs.Names.{ClientNo};
ghost use Rattle.private_model.specs.View.{Setup, View};
ghost use Rattle.log_story.specs.Plan.{Plan};
ghost use Rattle.log_story.specs.Servers.{links_are_freed};
ghost use Rattle.log_story.specs.Tale.{Client, Tale, view_of};
ghost use Rattle.log_story.specs.Telling.{tale_step};
ghost use Rattle.step_laws.specs.Freed.{AreAll, NoneDone, NoneDoneBut, freed_in};
ghost use Rattle.step_laws.specs.Like.{IsLike};
ghost use Rattle.step_laws.specs.Seats.{is_its};
ghost use Rattle.step_laws.specs.Spared.{SparesIn};
ghost use Rattle.step_laws.specs.Steps.{Concerned, IsConcerned, IsOfNone, IsOfOne, carries_either, carries_parting, concerned};
ghost use Rattle.step_laws.specs.Steps.{ended_then, freed_first, freed_told, its_end, leave, of_either, step_by, told_then};
ghost use Rattle.step_laws.specs.Taken.{ArePassedBut, AreSingle, gone_on};

/// Whatever the entry: where no link was to be given back before it, its step is that it is told, that links which it touched are given
/// back, that clients which are called take up messages, that those leave that are ended, and that links which carry sessions of either
/// are given back.
pub fn step_is()
    ensures { (setup : Setup) (plan : Plan) (tale : Tale) (e : Entry) (called : ClientNo → Bool)
        → NoneDone setup plan tale → AreSingle plan called
        → ArePassedBut setup plan (view_of setup tale) e called (freed_told setup plan tale e)
        → tale_step setup plan tale e
        ≡ step_by setup plan (concerned setup plan called tale e) tale e }
{}

/// By name: each part may be named as it is; and where links are named in another order, the tale becomes the same but for the order
/// in its story.
pub fn step_by_name()
    ensures exactly { (setup : Setup) (plan : Plan) (tale : Tale) (e : Entry) (by : Concerned)
        (called : ClientNo → Bool)
        → IsConcerned setup plan tale e by called
        → links_are_freed setup plan (told_then setup plan tale e) ≡ freed_first setup plan by tale e
        → links_are_freed setup plan (ended_then setup plan by tale e) ≡ step_by setup plan by tale e
        → tale_step setup plan tale e ≡ step_by setup plan by tale e }
    ensures likewise { (setup : Setup) (plan : Plan) (tale : Tale) (e : Entry) (by : Concerned)
        (called : ClientNo → Bool)
        → IsConcerned setup plan tale e by called
        → AreAll setup plan by.first (told_then setup plan tale e)
        → AreAll setup plan by.last (ended_then setup plan by tale e)
        → IsLike setup (tale_step setup plan tale e) (step_by setup plan by tale e) }
{}

/// Once the first links were given back, only links that carry sessions of clients that were called or ended may be; the links to
/// servers are those of the entry.
pub fn behind_rests()
    ensures rests { (setup : Setup) (plan : Plan) (tale : Tale) (e : Entry) (by : Concerned)
        (called : ClientNo → Bool)
        → IsConcerned setup plan tale e by called
        → NoneDone setup plan (freed_first setup plan by tale e)
        → NoneDoneBut setup plan (carries_parting setup plan called (freed_first setup plan by tale e))
        (ended_then setup plan by tale e) }
    ensures links { (setup : Setup) (plan : Plan) (tale : Tale) (e : Entry) (by : Concerned)
        (called : ClientNo → Bool)
        → IsConcerned setup plan tale e by called
        → (ended_then setup plan by tale e).links ≡ (told_then setup plan tale e).links }
{}

/// Of one client that may take up messages: the entry is told, links are given back, its messages are taken up, those leave that are
/// ended, and links are given back, which are among those that carry sessions of its or of those.
pub fn step_of_one()
    ensures one { (setup : Setup) (plan : Plan) (tale : Tale) (e : Entry) (client : Client)
        (ended : List ClientNo) (freed last : Tale)
        → IsOfOne setup plan tale e client ended freed
        → links_are_freed setup plan (its_end setup plan tale e client ended freed) ≡ last
        → tale_step setup plan tale e ≡ last }
    ensures parting { (setup : Setup) (plan : Plan) (tale : Tale) (e : Entry) (client : Client)
        (ended : List ClientNo) (freed : Tale)
        → IsOfOne setup plan tale e client ended freed
        → tale_step setup plan tale e
        ≡ freed_in setup plan (filter (carries_parting setup plan (is_its client) freed) freed.links)
        (its_end setup plan tale e client ended freed) }
{}

/// So it is where none takes up messages; and where none is ended either, nothing more is told.
pub fn step_of_none()
    ensures none { (setup : Setup) (plan : Plan) (tale : Tale) (e : Entry) (ended : List ClientNo)
        (freed last : Tale)
        → IsOfNone setup plan tale e ended freed
        → links_are_freed setup plan (leave ended freed) ≡ last
        → tale_step setup plan tale e ≡ last }
    ensures rests { (setup : Setup) (plan : Plan) (tale : Tale) (e : Entry) (freed : Tale)
        → IsOfNone setup plan tale e [] freed → tale_step setup plan tale e ≡ freed }
{}

/// Where none was to be given back before some clients took up messages and some left, only links that carry sessions of these may be.
pub fn parting_rests()
    ensures rests { (setup : Setup) (plan : Plan) (view : View) (e : Entry)
        (called ends : ClientNo → Bool) (clients : List Client) (ended : List ClientNo) (tale : Tale)
        → AreSingle plan called → All (λ (x : Client). called x.number ≡ true) clients
        → All (λ (c : ClientNo). ends c ≡ true) ended → NoneDone setup plan tale
        → NoneDoneBut setup plan (carries_either setup called ends tale)
        (leave ended (gone_on setup plan view e clients tale)) }
    ensures spares { (setup : Setup) (plan : Plan) (view : View) (e : Entry)
        (called ends : ClientNo → Bool) (clients : List Client) (ended : List ClientNo) (tale : Tale)
        → AreSingle plan called → All (λ (x : Client). called x.number ≡ true) clients
        → All (λ (c : ClientNo). ends c ≡ true) ended
        → SparesIn setup (λ l. false) (of_either called ends) tale
        (leave ended (gone_on setup plan view e clients tale)) }
    ensures links { (setup : Setup) (plan : Plan) (view : View) (e : Entry)
        (called : ClientNo → Bool) (clients : List Client) (ended : List ClientNo) (tale : Tale)
        → AreSingle plan called → All (λ (x : Client). called x.number ≡ true) clients
        → (leave ended (gone_on setup plan view e clients tale)).links ≡ tale.links }
{}
