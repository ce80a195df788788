// What is kept of a text that was prepared.
ghost use Rattle.std.specs.Prelude.{◌≡◌};
ghost use Rattle.pin_classifier.specs.Classes.{class_of};

use mx_base::Bytes;
use pin_classifier::Class;
use session_state::Place;
use std::marker::Model;

/// A text that was prepared, the place of its preparation and its class. A contract sees the text with its place; the class is the text's.
#[derive(Drop)]
pub struct Kept {
    text: Bytes,
    place: Place,
    class: Class,
}

impl Model for Kept {
    ghost use Rattle.std.specs.Prelude.{◌≡◌};
    ghost use Rattle.pin_classifier.specs.Classes.{class_of};
    ghost use Rattle.private_model.specs.Story.{Key};

    ghost Value = { Key };

    ghost view = { λ k. record { text = k.text; place = k.place } };

    ghost invariant = { λ k. k.class ≡ class_of k.text };
}

impl Kept {
    /// A text of this class. Takes no memory.
    pub(crate) fn new(text: Bytes, place: Place, class: Class) -> Self
        requires { class ≡ class_of text }
        ensures { result ≡ record { text = text; place = place } }
    {
        Kept { text, place, class }
    }

    /// The text.
    pub fn text(&self) -> &[u8]
        ensures { result.now ≡ self.now.text }
    {
        self.text.as_slice()
    }

    /// Where it was prepared.
    pub fn place(&self) -> &Place
        ensures { result.now ≡ self.now.place }
    {
        &self.place
    }

    /// Its class.
    pub fn class(&self) -> &Class
        ensures { result.now ≡ class_of self.now.text }
    {
        &self.class
    }
}
