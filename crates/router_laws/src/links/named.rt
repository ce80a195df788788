// Links that no entry names, and what the plan has begin on a link.
ghost use Rattle.std.specs.Prelude.{◌≡◌, All, Some, false};
ghost use Rattle.mx_base.specs.Sent as offers;
ghost use Rattle.mx_wire.specs.Log.{Log};
ghost use Rattle.mx_wire.specs.Tells.{IsNew};
ghost use Rattle.client_session.specs.Setups.{Setup as Service};
ghost use Rattle.private_model.specs.Names.{LinkId};
ghost use Rattle.private_model.specs.Story.{is_link_id};
ghost use Rattle.private_model.specs.View.{Setup, no_link};
ghost use Rattle.log_story.specs.Headline.{tale_of};
ghost use Rattle.log_story.specs.Plan.{Plan, StepText};
ghost use Rattle.log_story.specs.Tale as tales;
ghost use Rattle.log_story.specs.Tale.{is_to_server, link_in};
ghost use Rattle.core_tables.specs.Passing.{sends};
ghost use Rattle.core_tables.specs.Tables.{Tabled};
ghost use Rattle.core_tables.specs.declared.server.Server.{Server};
ghost use Rattle.core_stands.specs.Grounds.{Ground};
ghost use Rattle.core_stands.specs.Stands.{Stands};
ghost use Rattle.core_laws.specs.writing.Planned.{IsPlanned, planned_on};
ghost use Rattle.router_laws.specs.links.Steps.{step_on};

/// A link that no entry of a log names is none to a server in its tale, is no client's, and the law knows of none.
pub fn new_links_are_none()
    ensures server { (setup : Setup) (plan : Plan) (log : Log) (l : LinkId) → IsNew l log → is_to_server (tale_of setup plan log) l ≡ false }
    ensures none { (setup : Setup) (plan : Plan) (log : Log) (l : LinkId) → IsNew l log → link_in setup (tale_of setup plan log) l ≡ no_link }
    ensures clients { (setup : Setup) (plan : Plan) (log : Log) (l : LinkId) → IsNew l log
        → All (λ (client : tales.Client). is_link_id client.link l ≡ false) (tale_of setup plan log).clients }
{
    tale_world::new_links();
}

/// What begins on a link as something is written there is what the plan has begin, where it has the step that stands next there.
pub fn steps_are_planned()
    ensures { (service : Service) (g : Ground) (t : Tabled) (l : LinkId) (server : Server) (offer : offers.Sent) → Stands service g t
        → t.links l ≡ Some server → sends l t ≡ Some offer → ((step : StepText) → step_on l t ≡ Some step → planned_on g l ≡ step)
        → IsPlanned server.row.link.next g l server.row }
{}
