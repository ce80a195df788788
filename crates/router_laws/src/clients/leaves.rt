// A client's link is lost.
ghost use Rattle.std.specs.Prelude.{◌≡◌, ℕ, Bool, List, false};
ghost use Rattle.mx_base.specs.declared.names.ClientNo.{ClientNo};
ghost use Rattle.mx_base.specs.declared.names.LinkId.{LinkId};
ghost use Rattle.mx_wire.specs.Log.{Log};
ghost use Rattle.mx_wire.specs.declared.entry.Entry.{Entry};
ghost use Rattle.client_session.specs.Setups.{Setup as Service};
ghost use Rattle.private_model.specs.Story.{is_client};
ghost use Rattle.private_model.specs.View.{Setup};
ghost use Rattle.link_laws.specs.Stands.{Codes};
ghost use Rattle.log_story.specs.Plan.{Plan};
ghost use Rattle.tale_world.specs.Decided.{Decided};
ghost use Rattle.core_tables.specs.Tables.{Tabled};
ghost use Rattle.core_laws.specs.entry.Safe.{IsSafe};
ghost use Rattle.core_laws.specs.entry.Tells.{ground};
ghost use Rattle.core_laws.specs.clients.Follows.{Parting};
ghost use Rattle.core_laws.specs.clients.Turns.{Choice, Halt};
ghost use Rattle.router_laws.specs.clients.Counted.{GoesTaking};
ghost use Rattle.router_laws.specs.clients.Finds.{GoesFinding};
ghost use Rattle.router_laws.specs.clients.Leaves.{IsLossOf, LeavesAgain, LeavesAtOnce, LeavesGoing};
ghost use Rattle.router_laws.specs.clients.Plans.{FitsThen, IsDecided, PlansEnd, PlansTurns, nobody, over_by};

/// One that had ended leaves again.
pub fn leaves_again()
    ensures { (service : Service) (default : List ℕ) (setup : Setup) (codes : Codes) (plan : Plan) (log : Log) (e : Entry) (old new : Decided)
        (t now : Tabled) (roomy : ClientNo → Bool) (link : LinkId) (c : ClientNo) → FitsThen new.keys setup codes plan default log e → IsLossOf link e
        → IsSafe setup plan log → IsDecided (ground setup codes plan old log) nobody (over_by new) → LeavesAgain link c t now
        → GoesTaking service setup codes plan log e old new t now roomy roomy c 0 }
{
    core_laws::parting::left_stands();
    core_laws::parting::lawful_homes();
    core_laws::parting::same_stands();
    core_laws::parting::freed_stands();
    core_laws::entry::counts_alone();
}

/// One that waits for an answer, or isn't logged in yet, ends at once.
pub fn leaves_at_once()
    ensures { (service : Service) (default : List ℕ) (setup : Setup) (codes : Codes) (plan : Plan) (log : Log) (e : Entry) (old new : Decided)
        (t now : Tabled) (roomy room : ClientNo → Bool) (link : LinkId) (c : ClientNo) (links : List LinkId)
        → FitsThen new.keys setup codes plan default log e → IsLossOf link e → IsSafe setup plan log
        → PlansEnd (ground setup codes plan old log) log c (over_by new) → LeavesAtOnce link links c roomy t now
        → ((other : ClientNo) → is_client c other ≡ false → room other ≡ false → roomy other ≡ false)
        → GoesTaking service setup codes plan log e old new t now roomy room c 0 }
{
    core_laws::parting::left_stands();
    core_laws::parting::lawful_homes();
    core_laws::parting::same_stands();
    core_laws::parting::freed_stands();
    core_laws::entry::counts_alone();
    core_laws::entry::links_are_given_back();
}

/// One that is at rest begins anew, goes on, and is ended.
pub fn leaves_going()
    ensures { (service : Service) (default : List ℕ) (setup : Setup) (codes : Codes) (plan : Plan) (log : Log) (e : Entry) (old new : Decided)
        (t now : Tabled) (roomy room : ClientNo → Bool) (link : LinkId) (c : ClientNo) (links : List LinkId) (ordinal : ℕ) (choices : List Choice)
        (halt : Halt) (parting : Parting) → FitsThen new.keys setup codes plan default log e → IsLossOf link e → IsSafe setup plan log
        → PlansTurns service (ground setup codes plan old log) log c ordinal choices halt parting (over_by new)
        → (so : LeavesGoing service default link links ordinal choices halt parting c t now)
        → ((other : ClientNo) → is_client c other ≡ false → room other ≡ false → roomy other ≡ false)
        → GoesFinding service default setup codes plan log e old new t now roomy room c ordinal choices halt
        so.between so.follows.turned so.follows.turns }
{
    core_laws::parting::left_stands();
    core_laws::parting::lawful_homes();
    core_laws::parting::same_stands();
    core_laws::parting::freed_stands();
    desk_laws::anew_stands();
    core_laws::entry::counts_alone();
    core_laws::entry::links_are_given_back();
    core_laws::clients::follows_rest();
    core_laws::clients::follows_find();
}
