// The first tokens of a statement.
ghost use Rattle.std.specs.Prelude.{◌≡◌, []};
ghost use Rattle.pin_classifier.specs.Passing.{opening_of, with_token};

use sql_tokens::Token;

// The first six tokens of a statement, which are as many as a shape asks for.
#[derive(Clone, Copy)]
pub(crate) struct Opening {
    pub first: Option<Token>,
    pub second: Option<Token>,
    pub third: Option<Token>,
    pub fourth: Option<Token>,
    pub fifth: Option<Token>,
    pub sixth: Option<Token>,
}

impl Opening {
    pub(crate) fn new() -> Self
        ensures { result ≡ opening_of [] }
    {
        Opening {
            first: None,
            second: None,
            third: None,
            fourth: None,
            fifth: None,
            sixth: None,
        }
    }

    // Takes the next token of a statement, where there is room.
    pub(crate) fn take(&mut self, token: Token)
        ensures { self.new ≡ with_token self.old token }
    {
        if self.sixth.is_some() {
            return;
        }
        if self.first.is_none() {
            self.first = Some(token);
        } else if self.second.is_none() {
            self.second = Some(token);
        } else if self.third.is_none() {
            self.third = Some(token);
        } else if self.fourth.is_none() {
            self.fourth = Some(token);
        } else if self.fifth.is_none() {
            self.fifth = Some(token);
        } else {
            self.sixth = Some(token);
        }
    }
}
