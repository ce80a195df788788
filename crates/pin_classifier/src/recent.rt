// The tokens right before one.
ghost use Rattle.std.specs.Prelude.{◌≡◌};

use sql_tokens::Token;

// The last two tokens, where there are any.
#[derive(Clone, Copy)]
pub(crate) struct Recent {
    pub last: Option<Token>,
    pub earlier: Option<Token>,
}

impl Recent {
    ghost use Rattle.pin_classifier.specs.Marks.{nothing, followed_by};

    pub(crate) fn new() -> Self
        ensures { result ≡ nothing }
    {
        Recent {
            last: None,
            earlier: None,
        }
    }

    // With one token more.
    pub(crate) fn then(self, token: Token) -> Self
        ensures { result ≡ followed_by self token }
    {
        Recent {
            last: Some(token),
            earlier: self.last,
        }
    }
}
