// Laws of the grammar, for whoever stands on this crate.
ghost use Rattle.std.specs.Prelude.{◌≡◌, ◌≤◌, ℕ, List, ◌++◌, length, Ok};
ghost use Rattle.handshake.specs.declared.greeting.Greeting.{Greeting};
ghost use Rattle.handshake.specs.declared.response.Response.{Response};
ghost use Rattle.handshake.specs.declared.switch.Switch.{Switch};
ghost use Rattle.handshake.specs.Spelling.{IsText};
ghost use Rattle.handshake.specs.Greeting.{IsGreeting, HasGreeting, greeting_of, greeting_bytes};
ghost use Rattle.handshake.specs.Response.{IsResponse, HasResponse, response_of, response_bytes};
ghost use Rattle.handshake.specs.Switch.{HasSwitch, switch_of, switch_bytes};

/// Reading and writing are of one grammar. Bytes that have the fields of a greeting, a response or a request to switch
/// are read as it, whatever stands in fillers, however a length is spelled, and whatever follows.
pub fn one_grammar()
    ensures greeting { (bytes : List ℕ) (g : Greeting) → HasGreeting bytes g → greeting_of bytes ≡ Ok g }
    ensures response { (bytes : List ℕ) (r : Response) → HasResponse bytes r → response_of bytes ≡ Ok r }
    ensures switch { (bytes : List ℕ) (s : Switch) → HasSwitch bytes s → switch_of bytes ≡ Ok s }
{}

/// What is written has the fields, whatever follows it, and so is read again. The premises say that numbers fit their
/// fields, that texts have no NUL, and that what is there agrees with the capabilities.
pub fn written_again()
    ensures greeting { (g : Greeting) (more : List ℕ) → IsGreeting g → HasGreeting (greeting_bytes g ++ more) g }
    ensures response { (r : Response) (more : List ℕ) → IsResponse r → length r.answer ≤ 255 → HasResponse (response_bytes r ++ more) r }
    ensures switch { (s : Switch) (more : List ℕ) → IsText s.plugin → length s.salt ≡ 20 → HasSwitch (switch_bytes s ++ more) s }
{}
