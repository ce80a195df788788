//! What administrators may not be answered, and what may not come of it.
ghost use Rattle.std.specs.Prelude.{◌≡◌, ◌≢◌, ◌≤◌, ◌<◌, ℕ, All, List, ◌∷◌, Some, slice_get, suc};
ghost use Rattle.admin_port.specs.Answers.{Reply, rows_or, unknown};
ghost use Rattle.admin_port.specs.Answers.Reply.{Done, Loads};
ghost use Rattle.admin_port.specs.Selecting.{selected};
ghost use Rattle.admin_port.specs.Sheets.{shown};
ghost use Rattle.admin_port.specs.Statements.{statement_of};
ghost use Rattle.admin_port.specs.declared.running.Running.{Running};
ghost use Rattle.admin_port.specs.declared.statement.Query.{Query};
ghost use Rattle.admin_port.specs.declared.statement.StagedTable.TheVariants as tables;
ghost use Rattle.admin_port.specs.declared.statement.Statement.TheVariants.{Select};
ghost use Rattle.mx_base.specs.declared.names.Port.TheVariants.{Traffic};
ghost use Rattle.mx_wire.specs.Log.{Log};
ghost use Rattle.mx_wire.specs.declared.entry.Entry.{Entry};
ghost use Rattle.private_model.specs.View.{Setup};
ghost use Rattle.query_rules.specs.declared.rule.Rule.{Rule};
ghost use Rattle.log_story.specs.Owed.{name_of};
ghost use Rattle.log_story.specs.Plan.{Plan};
ghost use Rattle.log_story.specs.Tale.{Client, Tale};
ghost use Rattle.log_story.specs.Telling.{tale_step};
ghost use Rattle.router_promises.specs.Takings.{Taking};
ghost use Rattle.core_promises.specs.Administered.{AdministersAlong, AllTaken, Outcomes, taken_at};
ghost use Rattle.core_promises.specs.Administers.{Administered, AreRulesOf, IsStatementAnswer};

/// Rules come in force that no LOAD MYSQL QUERY RULES put there, as those that are only staged.
pub fn forces_what_wasnt_loaded()
    ensures { (text : List ℕ) (was is : Administered) (reply : Reply) → IsStatementAnswer text was is reply
        → reply ≢ Loads tables.Rules → is.rules ≢ was.rules → ⊥ }
{}

/// A LOAD MYSQL QUERY RULES is answered by an OK, and the staged rules aren't in force behind it.
pub fn loads_other_rules()
    ensures { (text : List ℕ) (was is : Administered) → IsStatementAnswer text was is (Loads tables.Rules)
        → (AreRulesOf is.staged.rules is.rules → ⊥) → ⊥ }
{}

/// A statement that isn't answered by an OK of its own changes what is staged: one that is refused, as an INSERT, a SELECT, or a LOAD.
pub fn stages_what_it_refused()
    ensures { (text : List ℕ) (was is : Administered) (reply : Reply) → IsStatementAnswer text was is reply → reply ≢ Done
        → is.staged ≢ was.staged → ⊥ }
{}

/// An administrator is shown rows that nobody staged.
pub fn shows_what_wasnt_staged()
    ensures { (text : List ℕ) (was is : Administered) (reply : Reply) (query : Query) → IsStatementAnswer text was is reply
        → statement_of text ≡ Some (Select query)
        → ((running : Running) → reply ≢ rows_or (unknown text) (selected query (shown query.table was.staged running))) → ⊥ }
{}

/// A message is judged by other rules than those in force before the entry at which it is taken up: so by none that its own entry loads.
pub fn judges_by_other_rules()
    ensures { (outcomes : Outcomes) (setup : Setup) (plan : Plan) (tale : Tale) (e : Entry) (log : Log) (was is : Administered)
        → AdministersAlong outcomes setup plan tale (e ∷ log) was is → (i k : ℕ) (client : Client)
        → slice_get (tale_step setup plan tale e).clients i ≡ Some client → taken_at tale.clients i ≤ k → k < client.taken
        → outcomes.rules (name_of client (suc k)) ≢ was.rules → ⊥ }
{}

/// What is staged, or which rules are in force, changes at an entry at which no message of an administrator is taken up.
pub fn changes_its_rules()
    ensures { (outcomes : Outcomes) (plan : Plan) (takings : List Taking) (force : List Rule) (before now : List Client) (was is : Administered)
        → AllTaken outcomes plan takings force before now was is → All (λ (taking : Taking). taking.client.port ≡ Traffic) takings → is ≢ was → ⊥ }
{}
