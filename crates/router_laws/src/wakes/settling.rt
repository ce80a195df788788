// What lending and looking do between entries.
ghost use Rattle.std.specs.Prelude.{Bool, List, ℕ};
ghost use Rattle.mx_wire.specs.Log.{Log};
ghost use Rattle.core_service.specs.declared.service.Service.{Service};
ghost use Rattle.core_texts.specs.Texts.{key_at};
ghost use Rattle.core_texts.specs.declared.texts.Texts.{Texts};
ghost use Rattle.client_session.specs.Setups.{Setup as Serving};
ghost use Rattle.private_model.specs.Names.{ClientNo};
ghost use Rattle.row_laws.specs.Readied.{AreClasses};
ghost use Rattle.core_tables.specs.Tables.{IsSame, Tabled};
ghost use Rattle.core_stands.specs.Grounds.{AreNamed, Ground};
ghost use Rattle.core_stands.specs.Stands.{Rests, Stands};
ghost use Rattle.router_laws.specs.decisions.Judges.{HasKeys};
ghost use Rattle.core_promises.specs.Administers.{Administered};
ghost use Rattle.router_laws.specs.decisions.Routers.{AreKnown, IsRouter};
ghost use Rattle.core_laws.specs.entry.Tells.{IsCore};
ghost use Rattle.router_laws.specs.wakes.Settling.{Settles, SettlesBy, Settling};

/// Tables that stand for a tale stand for it still, however they settle; and so do the core and the router of a log.
pub fn settling_stands()
    ensures stands { (service : Serving) (texts : Texts) (g : Ground) (t now : Tabled) → AreClasses g.setup.reads → AreNamed g.codes
        → HasKeys (key_at texts) g.setup → Stands service g t → Settles texts t now → Stands service g now }
    ensures rests { (service : Serving) (texts : Texts) (g : Ground) (t now : Tabled) (roomy : ClientNo → Bool) → AreClasses g.setup.reads
        → AreNamed g.codes → HasKeys (key_at texts) g.setup → Rests service g t roomy → Settles texts t now → Rests service g now roomy }
    ensures core { (service : Serving) (texts : Texts) (default : List ℕ) (log : Log) (t now : Tabled) (roomy : ClientNo → Bool)
        → (core : IsCore service default log t roomy) → AreKnown texts core.decided.keys → Settles texts t now
        → IsCore service default log now roomy }
    ensures router { (service : Service) (texts : Texts) (admin : Administered) (log : Log) (t now : Tabled) (roomy : ClientNo → Bool)
        → IsRouter service texts admin log t roomy → Settles texts t now → IsRouter service texts admin log now roomy }
{
    core_laws::parting::rows_of_others_stay();
    core_laws::parting::same_stands();
    core_laws::writing::text_begins();
    core_laws::writing::runs_begin();
    core_laws::writing::preps_begin();
    core_laws::writing::step_begins();
    core_laws::writing::others_begin();
    core_laws::writing::next_is_taken_back();
}

/// They settle step by step, by no step, and by steps behind steps.
pub fn settling_goes_on()
    ensures none { (texts : Texts) (t now : Tabled) → IsSame now t → Settles texts t now }
    ensures one { (texts : Texts) (step : Settling) (t now : Tabled) → SettlesBy texts step t now → Settles texts t now }
    ensures along { (texts : Texts) (t mid now : Tabled) → Settles texts t mid → Settles texts mid now → Settles texts t now }
{}
