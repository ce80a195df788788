// What stands next on a link is what the law's question is spelt as.
ghost use Rattle.std.specs.Prelude.{◌≡◌, ℕ, List};
ghost use Rattle.pin_classifier.specs.Classes.{class_of};
ghost use Rattle.private_model.specs.Commands.{Quit};
ghost use Rattle.private_model.specs.Names.{SessionName};
ghost use Rattle.private_model.specs.Story as story;
ghost use Rattle.private_model.specs.Story.{Due, Question, command_of};
ghost use Rattle.private_model.specs.View.{Link};
ghost use Rattle.log_story.specs.Plan as plan;
ghost use Rattle.log_story.specs.Plan.{step_payload, text_payload};
ghost use Rattle.server_rule.specs.Classes.{Reads};
ghost use Rattle.link_state.specs.Spells.{spelt};
ghost use Rattle.link_state.specs.declared.asking.Form.{Form};
ghost use Rattle.link_state.specs.declared.asking.Form.TheVariants as forms;
ghost use Rattle.link_state.specs.declared.asking.Purpose.{Purpose};
ghost use Rattle.link_state.specs.declared.asking.Purpose.TheVariants as purposes;
ghost use Rattle.link_state.specs.declared.wish.Wish.{Wish};
ghost use Rattle.link_state.specs.declared.wish.Wish.TheVariants as wishes;
ghost use Rattle.link_laws.specs.Stands.{Codes, IsForm, IsPurpose};
ghost use Rattle.served_link.specs.Begins.{captures, ends, farewell, prepares, step_begins};
ghost use Rattle.served_link.specs.States.{purpose_of, states};
ghost use Rattle.served_link.specs.declared.row.Row.{Row};
ghost use Rattle.served_link.specs.declared.stating.Stated.{Stated};
ghost use Rattle.row_laws.specs.Begins.{IsNext, IsReadied};
ghost use Rattle.row_laws.specs.Readied.{AreClasses, IsClients, IsSaid, IsStepFor, IsWished, form_of};

/// A step to a schema, to settings or to an insert id.
pub fn steps_are_readied()
    ensures { (reads : Reads) (codes : Codes) (row : Row) (link : Link) (purpose : Purpose) (wish : Wish) (question : Question) → AreClasses reads
        → IsStepFor purpose → IsPurpose codes purpose question → IsWished wish (command_of question)
        → IsReadied reads codes (step_begins purpose wish row) link (record { purpose = purpose; form = form_of wish }) question }
{}

/// The preparation of the text of an execute.
pub fn preparations_are_readied()
    ensures { (reads : Reads) (codes : Codes) (row : Row) (link : Link) (name n : SessionName) (ordinal number key : ℕ) (text there : List ℕ)
        → AreClasses reads → IsPurpose codes (purposes.Prep name ordinal number) (story.Prep n key there) → text ≡ there
        → IsReadied reads codes (prepares name ordinal number text row) link
        (record { purpose = purposes.Prep name ordinal number; form = forms.Prepare (class_of text) }) (story.Prep n key there) }
{}

/// The reset that ends a session, and the question for its insert id.
pub fn ends_are_readied()
    ensures ends { (reads : Reads) (codes : Codes) (row : Row) (link : Link) (name n : SessionName) → name ≡ n
        → IsReadied reads codes (ends name row) link (record { purpose = purposes.End name; form = forms.Reset }) (story.End n) }
    ensures captures { (reads : Reads) (codes : Codes) (row : Row) (link : Link) (name n : SessionName) → name ≡ n
        → IsReadied reads codes (captures name row) link (record { purpose = purposes.Capture name; form = forms.ReadId }) (story.Capture n) }
{}

/// A client's statement, as its packets came or as an execute by the number of what that executes.
pub fn statements_are_readied()
    ensures { (reads : Reads) (codes : Codes) (row : Row) (link : Link) (s : Stated) (form : Form) (said : List ℕ) (n : SessionName) (due : Due)
        → IsPurpose codes (purpose_of s) (story.Statement n due) → IsForm reads form due.command → IsClients form
        → IsSaid due.command (link.live due.key) said → s.multiplex ≡ due.multiplex
        → IsReadied reads codes (states s form said row) link (record { purpose = purpose_of s; form = form }) (story.Statement n due) }
{}

/// A STMT_CLOSE, a STMT_RESET and the QUIT.
pub fn others_are_spelt()
    ensures closes { (number : ℕ) (purpose : Purpose) (row : Row)
        → IsNext (step_begins purpose (wishes.Closes number) row).link.writing (spelt (step_payload (plan.Closes number))) }
    ensures resets { (number : ℕ) (purpose : Purpose) (row : Row)
        → IsNext (step_begins purpose (wishes.Resets number) row).link.writing (spelt (step_payload (plan.Resets number))) }
    ensures quits { (row : Row) → IsNext (farewell row).link.writing (spelt (text_payload Quit)) }
{}
