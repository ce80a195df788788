// What goes to a link next is the law's wish.
ghost use Rattle.std.specs.Prelude.{◌≡◌, ℕ, List, Option, Some, None};
ghost use Rattle.std.specs.Option.{option_map_or};
ghost use Rattle.session_state.specs.declared.place.Place.{Place};
ghost use Rattle.private_model.specs.Commands.{Command, Number};
ghost use Rattle.private_model.specs.Names.{SessionName};
ghost use Rattle.private_model.specs.Story.{Due, Question, Sync};
ghost use Rattle.private_model.specs.View.{Held, Link, Setup, View};
ghost use Rattle.tale_world.specs.Policy.{Texts, for_session, question_for};
ghost use Rattle.tale_world.specs.Wishes.{Standing, wish_for};
ghost use Rattle.link_laws.specs.Stands.{Codes};
ghost use Rattle.link_state.specs.Wants.{task_in, wish_by};
ghost use Rattle.link_state.specs.declared.state.LinkState.{LinkState};
ghost use Rattle.link_state.specs.declared.wish.Session.{Session};
ghost use Rattle.link_state.specs.declared.wish.Wanted.{Wanted};
ghost use Rattle.row_laws.specs.Wishes.{IsSession, IsWish, IsWishing, question_of};

/// What code has go to a link next for a statement that is due is what the law wishes there: a step, in its session or in nobody's, the
/// preparation of its text, the statement, or before them a STMT_CLOSE or a STMT_RESET.
pub fn wishes_are_laws()
    ensures { (texts : Texts) (fits : ℕ → Option Number) (setup : Setup) (codes : Codes) (state : LinkState) (link : Link) (held : Held)
        (n : SessionName) (due : Due) (wanted : Wanted) (place of_key : Place) (long : List ℕ) (standing : Standing) (step : Command → Question)
        → IsWishing texts fits setup codes state link held due wanted place of_key long standing step
        → IsWish setup n due step (wish_by state wanted place of_key long)
        (wish_for link standing (question_for texts fits setup n due step link held)) }
{}

/// What code takes a link for that joined a session is the question that the law has for the session: none, where the link rests.
pub fn tasks_are_laws()
    ensures { (texts : Texts) (fits : ℕ → Option Number) (setup : Setup) (seen : View) (link : Link) (n : SessionName) (s : Session)
        → IsSession seen n s → for_session texts fits setup seen link n
        ≡ question_of (task_in s) n (option_map_or (λ due. Some (question_for texts fits setup n due (Sync n) link (seen.held n))) (seen.dues n) None) }
{}
