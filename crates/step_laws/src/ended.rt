// Clients are ended.
ghost use Rattle.std.specs.Prelude.{◌≡◌, All, Bool, List, [], ◌∷◌, true};
ghost use Rattle.private_model.specs.Names.{ClientNo};
ghost use Rattle.private_model.specs.Story.{Left};
ghost use Rattle.private_model.specs.View.{Setup};
ghost use Rattle.log_story.specs.Clients.{clients_are_ended};
ghost use Rattle.log_story.specs.Plan.{Plan};
ghost use Rattle.log_story.specs.Tale.{Client, Tale, tell};
ghost use Rattle.step_laws.specs.Steps.{EndsNone, EndsOnly, ended_now, leave};
ghost use Rattle.step_laws.specs.Taken.{SparesOthers};

/// Those leave that the plan ends at this moment.
pub fn ends_among()
    ensures { (plan : Plan) (tale : Tale)
        → clients_are_ended plan tale ≡ leave (ended_now plan tale) tale }
{}

/// Where that is one of the clients, it leaves; where it is none, nothing is told.
pub fn ends_one()
    ensures one { (plan : Plan) (client : Client) (tale : Tale) → EndsOnly plan client tale
        → ended_now plan tale ≡ client.number ∷ [] }
    ensures leaves { (plan : Plan) (client : Client) (tale : Tale) → EndsOnly plan client tale
        → clients_are_ended plan tale ≡ tell (Left client.number) tale }
    ensures none { (plan : Plan) (tale : Tale) → EndsNone plan tale → ended_now plan tale ≡ [] }
    ensures stays { (plan : Plan) (tale : Tale) → EndsNone plan tale
        → clients_are_ended plan tale ≡ tale }
{}

/// That leaves links, what is held of sessions and what was read, and of other clients all.
pub fn ending_spares()
    ensures { (setup : Setup) (whose : ClientNo → Bool) (ended : List ClientNo) (tale : Tale)
        → All (λ (c : ClientNo). whose c ≡ true) ended
        → SparesOthers setup whose tale (leave ended tale) }
{}
