// What each tale of a log keeps.
ghost use Rattle.std.specs.Prelude.{All, fold};
ghost use Rattle.mx_wire.specs.Log.{Log};
ghost use Rattle.mx_wire.specs.declared.entry.Entry.{Entry};
ghost use Rattle.private_model.specs.View.{Setup};
ghost use Rattle.log_story.specs.Plan.{Plan};
ghost use Rattle.log_story.specs.Tale.{Tale, first_tale};
ghost use Rattle.log_story.specs.Telling.{tale_step, told};
ghost use Rattle.step_laws.specs.Freed.{NoneDone};
ghost use Rattle.step_laws.specs.Like.{IsLike};
ghost use Rattle.step_laws.specs.Seats.{AreCounted, IsSeated, numbers};
ghost use Rattle.step_laws.specs.Steps.{told_then};

/// No link is to be given back behind an entry.
pub fn rests_always()
    ensures { (setup : Setup) (plan : Plan) (log : Log)
        → NoneDone setup plan (fold (tale_step setup plan) first_tale log) }
{}

/// Clients are numbered by their places, also as an entry was told; so each has its number for itself.
pub fn numbered_always()
    ensures always { (setup : Setup) (plan : Plan) (log : Log)
        → AreCounted 1 (numbers (fold (tale_step setup plan) first_tale log)) }
    ensures told { (setup : Setup) (plan : Plan) (tale : Tale) (e : Entry) → AreCounted 1 (numbers tale)
        → AreCounted 1 (numbers (told_then setup plan tale e)) }
    ensures seated { (tale : Tale) → AreCounted 1 (numbers tale) → All (IsSeated tale) tale.clients }
{}

/// Tales that are the same but for the order in which their stories tell it stay so at each entry, and along a log.
pub fn likes_go_on()
    ensures told { (setup : Setup) (plan : Plan) (e : Entry) (old new : Tale) → IsLike setup old new
        → IsLike setup (told setup plan old e) (told setup plan new e) }
    ensures step { (setup : Setup) (plan : Plan) (e : Entry) (old new : Tale) → IsLike setup old new
        → IsLike setup (tale_step setup plan old e) (tale_step setup plan new e) }
    ensures log { (setup : Setup) (plan : Plan) (log : Log) (old new : Tale) → IsLike setup old new
        → IsLike setup (fold (tale_step setup plan) old log) (fold (tale_step setup plan) new log) }
    ensures itself { (setup : Setup) (tale : Tale) → IsLike setup tale tale }
    ensures along { (setup : Setup) (old mid new : Tale) → IsLike setup old mid → IsLike setup mid new
        → IsLike setup old new }
{}
