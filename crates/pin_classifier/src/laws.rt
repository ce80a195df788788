// Laws of classes, for whoever stands on this crate.
ghost use Rattle.std.specs.Prelude.{◌≡◌, ℕ, true, List};
ghost use Rattle.session_vars.specs.Shapes.{set_shape};
ghost use Rattle.sql_tokens.specs.declared.token.Token.{Token};
ghost use Rattle.pin_classifier.specs.Shapes.{set_in, shape_of};
ghost use Rattle.pin_classifier.specs.Sides.{StandTogether};
ghost use Rattle.pin_classifier.specs.Statement.{calls, releases, has_call, has_release};

/// A statement's shape is that of a SET statement exactly where the statement is one.
pub fn shape_of_set()
    ensures { (text : List ℕ) → set_in (shape_of text) ≡ set_shape text }
{}

/// A function is called exactly where its name and a `(` stand side by side among the tokens that count.
pub fn call_stands()
    ensures found { (text name : List ℕ) (tokens : List Token) → has_call text tokens name ≡ true → StandTogether (calls text name) tokens }
    ensures only { (text name : List ℕ) (tokens : List Token) → StandTogether (calls text name) tokens → has_call text tokens name ≡ true }
{}

/// RELEASE, but for NO RELEASE, is read exactly where it stands behind a token that isn't NO.
pub fn release_stands()
    ensures found { (text : List ℕ) (tokens : List Token) → has_release text tokens ≡ true → StandTogether (releases text) tokens }
    ensures only { (text : List ℕ) (tokens : List Token) → StandTogether (releases text) tokens → has_release text tokens ≡ true }
{}
