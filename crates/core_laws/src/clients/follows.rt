// What follows for one client at an entry.
ghost use Rattle.std.specs.Prelude.{◌≡◌, ◌+◌, ◌||◌, ℕ, suc, length, Bool, List, Option, false};
ghost use Rattle.mx_wire.specs.declared.entry.Entry.{Entry};
ghost use Rattle.client_session.specs.Setups.{Setup as Service};
ghost use Rattle.private_model.specs.Names.{ClientNo, LinkId};
ghost use Rattle.private_model.specs.Story.{is_client};
ghost use Rattle.log_story.specs.Owed.{messages, talk_of};
ghost use Rattle.log_story.specs.Tale as tales;
ghost use Rattle.log_story.specs.Tale.{Tale};
ghost use Rattle.step_laws.specs.Seats.{is_its};
ghost use Rattle.step_laws.specs.Steps.{ends_now};
ghost use Rattle.core_tables.specs.Tables.{Tabled};
ghost use Rattle.core_stands.specs.Grounds.{Ground};
ghost use Rattle.core_stands.specs.Stands.{Rests, Stands};
ghost use Rattle.core_laws.specs.clients.Following.{IsFollowed, IsFollowing, to_look};
ghost use Rattle.core_laws.specs.clients.Follows.{FollowsSo, Parting};
ghost use Rattle.core_laws.specs.clients.Found.{AreFoundAt};
ghost use Rattle.core_laws.specs.clients.Going.{Going, GoesSo};
ghost use Rattle.core_laws.specs.clients.Keeps.{KeepsRows};
ghost use Rattle.core_laws.specs.clients.Turns.{Choice, Halt, Turns, count_by};
ghost use Rattle.router_promises.specs.Takings.{takings_of};

use crate::clients::turns::{turns_find, turns_stand};

/// Where the tables stand for what an entry tells of one client, and links that are given back by that, they rest behind what follows for it:
/// its turns, its end, and links given back that carried its sessions.
pub fn follows_rest()
    ensures { (service : Service) (default : List ℕ) (g : Ground) (t mid now : Tabled) (roomy room over fresh : ClientNo → Bool) (e : Entry)
        (client : tales.Client) (freed : Tale) (choices : List Choice) (halt : Halt) (parting : Parting) (links : List LinkId)
        → Rests service g t roomy → IsFollowing service default g e client freed choices halt parting
        → ((c : ClientNo) → is_client client.number c ≡ false → fresh c ≡ false) → Stands service (to_look g fresh freed) mid
        → FollowsSo service default client.number choices halt parting links mid now
        → ((c : ClientNo) → over c ≡ (g.over c || ends_now g.plan (suc g.tale.moment) c))
        → ((c : ClientNo) → is_its client c ≡ false → room c ≡ false → roomy c ≡ false)
        → IsFollowed service g e client freed (client.taken + count_by choices halt) over room now }
{
    turns_stand();
    crate::parting::left_stands();
    crate::parting::lawful_homes();
    crate::parting::same_stands();
    crate::entry::links_are_given_back();
    crate::entry::entries_of_one();
}

/// Of what follows for one client at an entry: the messages that it took up are those that came up at its turns, it is served as the user that the setup
/// has for it, and at each it stood as the tale has it just then.
pub fn follows_find()
    ensures { (service : Service) (default : List ℕ) (g : Ground) (mid now : Tabled) (fresh : ClientNo → Bool) (e : Entry) (client : tales.Client)
        (freed : Tale) (choices : List Choice) (halt : Halt) (parting : Parting) (c : ClientNo) → client.number ≡ c
        → IsFollowing service default g e client freed choices halt parting → Stands service (to_look g fresh freed) mid
        → (turns : Turns choices halt service default c mid now)
        → AreFoundAt choices halt service default c mid now turns g.setup g.plan (takings_of (length (messages g.plan client)) g.setup g.plan client freed)
        (talk_of g.plan client) client.taken }
{
    turns_find();
}

/// No client and no link comes or goes by that: by a client's turns, nor by all of it.
pub fn follows_keep()
    ensures turns { (service : Service) (default : List ℕ) (c : ClientNo) (choices : List Choice) (halt : Halt) (old new : Tabled)
        → Turns choices halt service default c old new → KeepsRows old new }
    ensures all { (service : Service) (default : List ℕ) (going : Option Going) (old new : Tabled) → GoesSo going service default old new
        → KeepsRows old new }
{}
