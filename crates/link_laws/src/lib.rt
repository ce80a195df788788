//! What code keeps of a link to a server stands for the law's link, at each thing that happens there.
#![tactic(auto)]

ghost use Rattle.std.specs.Prelude.{◌≡◌, ℕ};
ghost use Rattle.private_model.specs.Commands.{Account, Reply, end_of};
ghost use Rattle.private_model.specs.Names.{ServerId};
ghost use Rattle.private_model.specs.Story.{Question};
ghost use Rattle.private_model.specs.View as view;
ghost use Rattle.private_model.specs.View.{Link, new_link, ran_by};
ghost use Rattle.server_rule.specs.Classes.{Reads};
ghost use Rattle.server_rule.specs.Replies.{one_number};
ghost use Rattle.link_state.specs.States.{asked, closed_number, fresh, freed, heard, ran};
ghost use Rattle.link_state.specs.declared.asking.Asking.{Asking};
ghost use Rattle.link_state.specs.declared.state.LinkState.{LinkState};
ghost use Rattle.link_laws.specs.Stands.{AreApart, Codes, IsAsking, IsLink, IsNaming};

/// A link that logged in stands for the law's new one.
pub fn new_stands()
    ensures { (reads : Reads) (codes : Codes) (server : ServerId) (account : Account) → IsLink reads codes fresh (new_link server account) }
{}

/// A question goes out.
pub fn asked_stands()
    ensures { (reads : Reads) (codes : Codes) (state : LinkState) (link : Link) (asking : Asking) (question : Question)
        → IsLink reads codes state link → IsAsking reads codes asking question
        → IsLink reads codes (asked asking state) (view.asked question link) }
{}

/// The server runs what stands there.
pub fn ran_stands()
    ensures { (reads : Reads) (codes : Codes) (state : LinkState) (link : Link) → IsLink reads codes state link
        → IsLink reads codes (ran state) (ran_by reads link.stage link) }
{}

/// The answer to it is read.
pub fn heard_stands()
    ensures { (reads : Reads) (codes : Codes) (state : LinkState) (link : Link) (question : Question) (reply : Reply) → AreApart codes
        → IsLink reads codes state link → link.stage ≡ view.Answered question
        → IsLink reads codes (heard (end_of reply) (one_number reply.payloads) state) (view.heard reads question reply link) }
{}

/// The link is given back.
pub fn freed_stands()
    ensures { (reads : Reads) (codes : Codes) (state : LinkState) (link : Link) → IsLink reads codes state link
        → IsLink reads codes (freed state) (view.freed link) }
{}

/// What has a number there is closed.
pub fn closed_stands()
    ensures { (reads : Reads) (codes : Codes) (state : LinkState) (link : Link) (number : ℕ) → IsLink reads codes state link
        → IsLink reads codes (closed_number number state) (view.closed_number number link) }
{}

/// Keys have other numbers: of what is asked there and of what is prepared there the same ones.
pub fn named_stands()
    ensures { (reads : Reads) (was codes : Codes) (state : LinkState) (link : Link) → IsNaming was codes state link
        → IsLink reads was state link → IsLink reads codes state link }
{}
