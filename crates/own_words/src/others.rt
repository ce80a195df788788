// Routers that say what others said: none that speaks its own words alone does so.
ghost use Rattle.std.specs.Prelude.{◌≡◌, ◌≢◌, ◌<◌, ◌^◌, ℕ, false, List, [], ◌∷◌, codes, Some};
ghost use Rattle.client_session.specs.Errors.{connection_lost};
ghost use Rattle.reply_text.specs.Replies.{err_payload, ok_payload};
ghost use Rattle.query_rules.specs.declared.rule.Rule.{Rule};
ghost use Rattle.private_model.specs.Names.{ClientNo, MessageName};
ghost use Rattle.log_story.specs.Plan.{LastWord, OwnAnswer, Plan};
ghost use Rattle.own_words.specs.Codes.{is_last_code, is_own_code};
ghost use Rattle.own_words.specs.Own.{IsAnswer, IsOwn, SpeaksOwn, is_error_text, is_ok_text, number_payloads};

/// A message is answered with an error whose code is none of the router's, as a server's that quotes another's statement.
pub fn answers_with_a_servers_error()
    ensures { (rules : MessageName → List Rule) (plan : Plan) (m : MessageName) (from code : ℕ) (state text : List ℕ)
        → SpeaksOwn rules plan
        → plan.own m ≡ Some (record { from = from; payloads = err_payload code state text ∷ [] })
        → is_own_code code ≡ false → ⊥ }
{}

/// It is told that its link was lost, in other words or in more.
pub fn says_more_than_a_loss()
    ensures { (rules : MessageName → List Rule) (plan : Plan) (m : MessageName) (from : ℕ) (state text : List ℕ)
        → SpeaksOwn rules plan
        → plan.own m ≡ Some (record { from = from; payloads = err_payload 9101 state text ∷ [] })
        → err_payload 9101 state text ≢ connection_lost → ⊥ }
{}

/// It is refused with a text that no rule has.
pub fn answers_with_any_refusal()
    ensures { (rules : MessageName → List Rule) (plan : Plan) (m : MessageName) (from : ℕ) (text : List ℕ)
        → SpeaksOwn rules plan
        → plan.own m ≡ Some (record { from = from; payloads = err_payload 1148 (codes "42000") text ∷ [] })
        → is_error_text (rules m) text ≡ false → ⊥ }
{}

/// It is answered OK, with a text that no rule has.
pub fn answers_ok_with_any_text()
    ensures { (rules : MessageName → List Rule) (plan : Plan) (m : MessageName) (from status : ℕ) (text : List ℕ)
        → SpeaksOwn rules plan
        → plan.own m ≡ Some (record { from = from; payloads = ok_payload status text ∷ [] })
        → text ≢ [] → is_ok_text (rules m) text ≡ false → ⊥ }
{}

/// A client is answered with rows that aren't the table of its own number.
pub fn answers_with_rows()
    ensures { (rules : List Rule) (client : ClientNo) (payloads : List (List ℕ))
        (first second : List ℕ) (more : List (List ℕ)) → IsAnswer rules client payloads
        → payloads ≡ first ∷ second ∷ more
        → ((status : ℕ) → payloads ≢ number_payloads status client.0) → ⊥ }
{}

/// It is told another client's number.
pub fn tells_anothers_number()
    ensures { (rules : List Rule) (client other : ClientNo) (status : ℕ)
        → IsAnswer rules client (number_payloads status other.0)
        → client.0 < 2 ^ 64 → other.0 < 2 ^ 64 → other.0 ≢ client.0 → ⊥ }
{}

/// The last word to a client is an error whose code is none of the router's.
pub fn parts_with_a_servers_error()
    ensures { (rules : MessageName → List Rule) (plan : Plan) (c : ClientNo) (word : LastWord) (code : ℕ)
        (state text : List ℕ) → SpeaksOwn rules plan
        → plan.words c ≡ Some word → word.payloads ≡ err_payload code state text ∷ []
        → is_last_code code ≡ false → ⊥ }
{}

/// It has more than one packet, as rows have.
pub fn parts_with_rows()
    ensures { (rules : MessageName → List Rule) (plan : Plan) (c : ClientNo) (word : LastWord)
        (first second : List ℕ) (more : List (List ℕ)) → SpeaksOwn rules plan
        → plan.words c ≡ Some word → word.payloads ≡ first ∷ second ∷ more → ⊥ }
{}

/// What the router itself answers one client, but for that client's number, it could answer each other client in the same bytes.
pub fn own_answers_are_everybodys()
    ensures { (rules : List Rule) (client other : ClientNo) (payloads : List (List ℕ))
        → IsOwn rules client payloads
        → ((status : ℕ) → payloads ≢ number_payloads status client.0) → IsOwn rules other payloads }
{}
