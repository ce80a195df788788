// Laws of seats, for whoever stands on this crate.
ghost use Rattle.std.specs.Prelude.{◌≡◌, ◌≤◌, ◌<◌, ℕ, suc, ◌+◌, Bool, true, false, List, ◌++◌, length, nat_eq, slice_index_or, Some, None};
ghost use Rattle.std.specs.Option.{option_map};
ghost use Rattle.mx_base.specs.Fields.{number_at};
ghost use Rattle.handshake.specs.declared.response.Response.{Response};
ghost use Rattle.packet_frame.specs.Packets.{Framed, first_message};
ghost use Rattle.packet_frame.specs.Packets.Found.{Whole};
ghost use Rattle.server_side.specs.Account.{Account};
ghost use Rattle.client_side.specs.Login.{Says, Waits, opening};
ghost use Rattle.client_side.specs.Reading.{HasStepped, said_to};
ghost use Rattle.client_side.specs.Steps.{next_of};
ghost use Rattle.client_session.specs.Accounts.{account_of};
ghost use Rattle.log_story.specs.Owed.{messages};
ghost use Rattle.log_story.specs.Executes.{requested};
ghost use Rattle.log_story.specs.Plan.{Plan, Route, com_execute};
ghost use Rattle.private_model.specs.View.{Setup};
ghost use Rattle.stmt_map.specs.declared.client.ClientStatements.{ClientStatements};
ghost use Rattle.client_seat.specs.Numbers.{Numbered, noted, number_in};
ghost use Rattle.client_seat.specs.Requests.{asked_in, request_of};
ghost use Rattle.log_story.specs.Tale.{Client};
ghost use Rattle.client_seat.specs.Seats.{Seat, got, wrote};
ghost use Rattle.client_seat.specs.Stands.{Answers, IsEntering, IsHeard, IsNext, IsNumbered, IsOnward, IsServed, IsWho, IsWrittenOf, Known, Makes, answer_to, due_so_far, is_refused};
ghost use Rattle.client_seat.specs.Takings.{passed};
ghost use Rattle.client_seat.specs.Turns.{admitted, stepped};
ghost use Rattle.client_session.specs.Setups.{users_at};

/// A seat stands for its client as bytes are read of it, and as its messages are taken up: what is kept stands behind those
/// that were, so the message that is found is the client's next.
pub fn seats_hear()
    ensures hears { (plan : Plan) (client : Client) (seat : Seat) (more : List ℕ) →
        IsHeard plan client seat →
        IsHeard plan (record client { read = client.read ++ more }) (got more seat) }
    ensures next { (plan : Plan) (client : Client) (seat : Seat) (user : Account) →
        (message : Framed) (rest : List ℕ) → IsServed plan client seat user →
        first_message plan.service.limit 0 seat.client.framer.kept ≡ Whole message rest →
        IsNext plan client message }
    ensures taken { (plan : Plan) (client : Client) (seat : Seat) (user : Account) (flag : ℕ) →
        (message : Framed) (rest : List ℕ) → IsServed plan client seat user →
        first_message plan.service.limit 0 seat.client.framer.kept ≡ Whole message rest →
        client.taken + 1 < 18446744073709551616 →
        IsServed plan (record client { taken = suc client.taken }) (passed flag message seat) user }
{}

/// So it is as a client logs in: the next step of its link is what its bytes say. While they are no whole login, all is due that was
/// said in it; and who is let in is served, with the OK due.
pub fn seats_log_in()
    ensures goes { (plan : Plan) (client : Client) (seat : Seat) → IsWho client seat →
        (was : IsEntering plan client seat) →
        HasStepped (next_of seat.client.stage seat.client).step
        (next_of seat.client.stage seat.client).client plan.service.limit plan.service.version
        client.read (was.written ++ (stepped seat).outbox.due) }
    ensures waits { (x : Known) (client : Client) (seat : Seat) (switched : Bool) →
        IsWho client seat → (was : IsEntering x.plan client seat) →
        opening x.plan.service.limit client.read ≡ Waits switched →
        was.written ++ (stepped seat).outbox.due ≡ said_to
        (next_of seat.client.stage seat.client).client x.plan.service.version switched →
        IsWrittenOf client (stepped seat) (due_so_far x client) }
    ensures enters { (x : Known) (client : Client) (seat : Seat) (default : List ℕ) →
        (user : Account) (response : Response) (first : ℕ) (switched : Bool) →
        IsWho client seat → (was : IsEntering x.plan client seat) →
        (next_of seat.client.stage seat.client).client.framer.fault ≡ None →
        opening x.plan.service.limit client.read ≡ Says switched response first
        (next_of seat.client.stage seat.client).client.framer.kept →
        was.written ++ (stepped seat).outbox.due ≡ said_to
        (next_of seat.client.stage seat.client).client x.plan.service.version switched →
        account_of (users_at x.plan.service client.port) client.salt response ≡ Some user →
        IsServed x.plan client (admitted default user response first (stepped seat)) user
        × IsWrittenOf client (admitted default user response first (stepped seat))
        (due_so_far x client) }
{}

/// What was written to a client and what is to be written are together what it is due: as bytes are written, as more is due, as a
/// message is taken up that isn't answered, and as the last one is answered.
pub fn seats_owe()
    ensures written { (client : Client) (seat : Seat) (due : List ℕ) (n : ℕ) →
        n ≤ length seat.outbox.due → IsWrittenOf client seat due →
        IsWrittenOf (record client { written = client.written + n }) (wrote n seat) due }
    ensures more { (client : Client) (old new : Seat) (due more : List ℕ) →
        new.outbox.due ≡ old.outbox.due ++ more → IsWrittenOf client old due →
        IsWrittenOf client new (due ++ more) }
    ensures taken { (x : Known) (client : Client) (message : Framed) →
        client.taken ≤ length (messages x.plan client) → IsNext x.plan client message →
        answer_to x client (suc client.taken) message ≡ None →
        due_so_far x (record client { taken = suc client.taken }) ≡ due_so_far x client }
    ensures answered { (x y : Known) (client : Client) (before : List Framed) →
        (message : Framed) (bytes : List ℕ) → Answers x y client before message bytes →
        due_so_far y client ≡ due_so_far x client ++ bytes }
{}

/// What a client has prepared under a number stands so as its messages are taken up; and what a message asks for is what it asks for in
/// a story, where the router's own number of a preparation stands for the story's key.
pub fn seats_prepare()
    ensures noted { (x : Known) (client : Client) (named : ℕ → ℕ) (number : ℕ) →
        (one now : Numbered) (message : Framed) → IsNumbered x client named number one →
        client.taken ≤ length (messages x.plan client) → IsNext x.plan client message →
        noted (is_refused x client (suc client.taken)) number message.payload one ≡ Some now →
        IsNumbered x (record client { taken = suc client.taken }) named number now }
    ensures text { (x : Known) (setup : Setup) (client : Client) (statements : ClientStatements) →
        (named : ℕ → ℕ) (route : Route) (payload : List ℕ) →
        nat_eq (slice_index_or payload 0 0) com_execute ≡ false →
        requested setup x.view x.plan client (suc client.taken) route payload
        ≡ option_map (request_of setup (x.view.places client.number).schema route.key named) (asked_in statements payload route.text) }
    ensures runs { (x : Known) (setup : Setup) (client : Client) (statements : ClientStatements) →
        (named : ℕ → ℕ) (route : Route) (payload : List ℕ) (number : ℕ) (one : Numbered) →
        nat_eq (slice_index_or payload 0 0) com_execute ≡ true →
        number_at 4 1 payload ≡ Some number → number_in statements number ≡ Some one →
        IsNumbered x client named number one →
        requested setup x.view x.plan client (suc client.taken) route payload
        ≡ option_map (request_of setup (x.view.places client.number).schema route.key named) (asked_in statements payload route.text) }
{}

/// So it is as more is read of the client, and as its last message is answered; and what that message prepared stands under its number.
pub fn numbers_go_on()
    ensures onward { (x y : Known) (client other : Client) (named : ℕ → ℕ) (number : ℕ) (one : Numbered) → IsOnward x y client other →
        client.taken ≤ length (messages x.plan client) → IsNumbered x client named number one →
        IsNumbered y other named number one }
    ensures makes { (x : Known) (client : Client) (named : ℕ → ℕ) (number : ℕ) (one : Numbered) → Makes x client named number one →
        IsNumbered x client named number one }
{}
