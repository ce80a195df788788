// Links are given back.
ghost use Rattle.std.specs.Prelude.{◌≡◌, ℕ, Bool, List, false, filter, true};
ghost use Rattle.mx_base.specs.declared.names.LinkId.{LinkId};
ghost use Rattle.private_model.specs.Story.{is_link_id};
ghost use Rattle.private_model.specs.View.{Setup};
ghost use Rattle.log_story.specs.Plan.{Plan};
ghost use Rattle.log_story.specs.Servers.{freed_if_done, links_are_freed};
ghost use Rattle.log_story.specs.Tale.{Tale, is_to_server};
ghost use Rattle.step_laws.specs.Freed.{AreAll, Ascend, NoneDone, NoneDoneBut, freed_in, is_done_at};
ghost use Rattle.step_laws.specs.Like.{IsLike};

/// Where no link outside of a test is to be given back, those that pass it are given back in their order, as if there were no others.
pub fn frees_among()
    ensures { (setup : Setup) (plan : Plan) (touched : LinkId → Bool) (tale : Tale)
        → NoneDoneBut setup plan touched tale
        → links_are_freed setup plan tale ≡ freed_in setup plan (filter touched tale.links) tale }
{}

/// So it is of one link, and where there is none nothing is told.
pub fn frees_one()
    ensures one { (setup : Setup) (plan : Plan) (link : LinkId) (tale : Tale)
        → is_to_server tale link ≡ true → NoneDoneBut setup plan (λ l. is_link_id l link) tale
        → links_are_freed setup plan tale ≡ freed_if_done setup plan tale link }
    ensures none { (setup : Setup) (plan : Plan) (tale : Tale) → NoneDone setup plan tale
        → links_are_freed setup plan tale ≡ tale }
{}

/// Where all that are to be given back are named in the order in which links stand in the tale, by places that go up, they are given back
/// as they are named.
pub fn frees_in_order()
    ensures { (setup : Setup) (plan : Plan) (place : LinkId → ℕ) (links : List LinkId) (tale : Tale)
        → AreAll setup plan links tale → Ascend place tale.links → Ascend place links
        → links_are_freed setup plan tale ≡ freed_in setup plan links tale }
{}

/// In whatever order all that are to be given back are named, and how often, the tale becomes the same but for the order in its story.
pub fn frees_named()
    ensures { (setup : Setup) (plan : Plan) (links : List LinkId) (tale : Tale)
        → AreAll setup plan links tale
        → IsLike setup (links_are_freed setup plan tale) (freed_in setup plan links tale) }
{}

/// One that is given back leaves whether another is to be; and once all were, none is.
pub fn freeing_spares()
    ensures others { (setup : Setup) (plan : Plan) (tale : Tale) (link other : LinkId)
        → is_link_id other link ≡ false
        → is_done_at setup plan (freed_if_done setup plan tale link) other
        ≡ is_done_at setup plan tale other }
    ensures itself { (setup : Setup) (plan : Plan) (tale : Tale) (link : LinkId)
        → is_done_at setup plan (freed_if_done setup plan tale link) link ≡ false }
    ensures all { (setup : Setup) (plan : Plan) (tale : Tale)
        → NoneDone setup plan (links_are_freed setup plan tale) }
    ensures named { (setup : Setup) (plan : Plan) (links : List LinkId) (tale : Tale)
        → AreAll setup plan links tale → NoneDone setup plan (freed_in setup plan links tale) }
{}
