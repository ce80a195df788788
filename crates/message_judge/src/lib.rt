//! What becomes of a client's message: where it goes, or what the router answers itself.
#![tactic(auto)]

mod caller;
mod draft;
mod message;
mod own;
mod sending;
mod told;
mod writing;

ghost use Rattle.std.specs.Prelude.{◌≡◌, ℕ, List, Option};
ghost use Rattle.hostgroups.specs.declared.server.Server.{Server};
ghost use Rattle.router_promises.specs.Takings.{Taking};
ghost use Rattle.router_promises.specs.Terms.{Terms};
ghost use Rattle.router_promises.specs.Verdicts.{flag_behind, held_in, verdict};
ghost use Rattle.message_judge.specs.Callers.{IsCaller, IsNamed, Stands, is_there};
ghost use Rattle.message_judge.specs.Judging.{judged, verdict_by};
ghost use Rattle.message_judge.specs.declared.caller.Caller.{Caller};
ghost use Rattle.message_judge.specs.declared.caller.Prepared.{Prepared};
ghost use Rattle.message_judge.specs.declared.caller.Standing.{Standing};

pub use caller::{Caller, Prepared, Standing};
pub use draft::{ClassOf, Draft, Going, Judged};
pub use message::judge;
pub use sending::admit;
pub use told::{OwnError, Told};
pub use writing::write_told;

/// What becomes of a message by what is known of its client is what the promise says of it, and so is the flag behind it.
pub fn judges_as_promised()
    ensures verdict { (terms : Terms) (servers : List Server) (flag : ℕ) (taking : Taking) (caller : Caller) (standing : Standing)
        (prepared : Option Prepared)
        → IsCaller terms flag taking caller → Stands terms taking standing → IsNamed terms taking prepared
        → verdict terms servers flag taking
        ≡ verdict_by (λ h. (held_in terms taking h).pin) (is_there terms servers taking)
        (judged terms.router.reads terms.router.rules caller standing prepared taking.message.payload).draft }
    ensures flag { (terms : Terms) (flag : ℕ) (taking : Taking) (caller : Caller) (standing : Standing) (prepared : Option Prepared)
        → IsCaller terms flag taking caller → Stands terms taking standing → IsNamed terms taking prepared
        → flag_behind terms flag taking
        ≡ (judged terms.router.reads terms.router.rules caller standing prepared taking.message.payload).flag }
{}
