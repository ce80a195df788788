//! How what the core keeps of its clients and links stands for a tale, by one setup and one plan.
#![tactic(auto)]

ghost use Rattle.std.specs.Prelude.{◌≡◌, Bool, false};
ghost use Rattle.client_session.specs.Setups.{Setup as Service};
ghost use Rattle.core_stands.specs.Grounds.{first_ground};
ghost use Rattle.core_stands.specs.Stands.{Rests};
ghost use Rattle.core_tables.specs.Tables.{no_tables};
ghost use Rattle.link_laws.specs.Stands.{Codes};
ghost use Rattle.log_story.specs.Plan.{Plan, is_by_now};
ghost use Rattle.private_model.specs.Names.{ClientNo};
ghost use Rattle.private_model.specs.View.{Setup};

/// Empty tables stand for the tale of no entries, where the plan ends nobody before the first.
pub fn first_stands()
    ensures { (service : Service) (setup : Setup) (codes : Codes) (plan : Plan) (roomy : ClientNo → Bool) → plan.service ≡ service → plan.room ≡ 1048576
        → ((c : ClientNo) → is_by_now 0 (plan.ends c) ≡ false) → Rests service (first_ground setup codes plan) no_tables roomy }
{}
