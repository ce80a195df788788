// What is promised of all statements, for whoever stands on this crate.
ghost use Rattle.std.specs.Prelude.{◌≡◌, ℕ, Bool, true, List, None};
ghost use Rattle.admin_port.specs.Answers.{IsAnswered, Reply};
ghost use Rattle.admin_port.specs.Answers.Reply.{Refused};
ghost use Rattle.admin_port.specs.Sheets.{shown};
ghost use Rattle.admin_port.specs.Staged.{StagedRows, sets_key, updated};
ghost use Rattle.admin_port.specs.declared.answer.Refusal.{Refusal};
ghost use Rattle.admin_port.specs.declared.pair.Pair.{Pair};
ghost use Rattle.admin_port.specs.declared.running.Running.{Running};
ghost use Rattle.admin_port.specs.declared.statement.Key.TheVariants.{Rule, Server};
ghost use Rattle.admin_port.specs.declared.statement.ServerKey.{ServerKey};
ghost use Rattle.admin_port.specs.declared.statement.ShownTable.TheVariants.{RuntimeRules, RuntimeServers};
ghost use Rattle.admin_port.specs.declared.statement.StagedTable.TheVariants.{Rules, Servers};

/// Nothing that is staged shows among what runs.
pub fn runs_apart()
    ensures servers { (staged other : StagedRows) (running : Running) → shown RuntimeServers staged running ≡ shown RuntimeServers other running }
    ensures rules { (staged other : StagedRows) (running : Running) → shown RuntimeRules staged running ≡ shown RuntimeRules other running }
{}

/// A refused statement changes nothing.
pub fn refused_leaves()
    ensures { (text : List ℕ) (staged after : StagedRows) (running : Running) (refusal : Refusal)
        → IsAnswered text staged running (after, Refused refusal) → after ≡ staged }
{}

/// An UPDATE that gives a value to a column of the key is refused.
pub fn keys_stay()
    ensures servers { (patterned : Bool) (staged : StagedRows) (key : ServerKey) (pairs : List Pair)
        → sets_key Servers pairs ≡ true → updated patterned staged (Server key) pairs ≡ None }
    ensures rules { (patterned : Bool) (staged : StagedRows) (id : ℕ) (pairs : List Pair)
        → sets_key Rules pairs ≡ true → updated patterned staged (Rule id) pairs ≡ None }
{}
