// Words of a list, whatever stands around them.
ghost use Rattle.std.specs.Prelude.{◌≡◌, option_copied};
ghost use Rattle.pin_classifier.specs.Diagnostics.{has_any, is_letter, names_any};

use crate::word_list::{WordList, lists};

// ASCII letters and `_`, of which the words of the lists are made.
fn is_letter(byte: u8) -> bool
    ensures { result ≡ is_letter byte }
{
    byte.is_ascii_alphabetic() || byte == b'_'
}

// Whether a longest run of these is a word of the list.
pub(crate) fn has_any(words: WordList, bytes: &[u8]) -> bool
    ensures { result ≡ has_any words bytes.now }
{
    bytes
        .split(|byte| !is_letter(*byte))
        .any(|run| lists(words, run))
}

pub(crate) fn names_any(words: WordList, name: Option<&[u8]>) -> bool
    ensures { result ≡ names_any words (option_copied name.entry) }
{
    match name {
        Some(name) => has_any(words, name),
        None => false,
    }
}
