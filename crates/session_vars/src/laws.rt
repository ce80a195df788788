// Laws of settings, for whoever stands on this crate.
ghost use Rattle.std.specs.Prelude.{◌≡◌, ◌≢◌, ℕ, true, false, nat_eq, List, [], ◌∷◌, Some, filter, codes};
ghost use Rattle.std.specs.List.{list_all, slice_split};
ghost use Rattle.sql_tokens.specs.Tokens.{tokens_of};
ghost use Rattle.session_vars.specs.Modes.{added_to, is_added_list, joined_text, named_by, names_mode, own_mode};
ghost use Rattle.session_vars.specs.Settings.{AreSettings, applied, collation_settings, difference_of, is_text, value_at};
ghost use Rattle.session_vars.specs.Shapes.{changes_by, set_shape};
ghost use Rattle.session_vars.specs.Statement.{says_first, without_comments};
ghost use Rattle.session_vars.specs.Texts.{CanBeSet, is_assigned, names_text, session_text};
ghost use Rattle.session_vars.specs.Tracked.{AreTracked, IsTrackedValue};
ghost use Rattle.session_vars.specs.declared.change.Change.{Change};
ghost use Rattle.session_vars.specs.declared.change.SlotValue.{SlotValue};

use crate::{SetShape, Slot, SlotValue};

/// A statement is a SET statement exactly where its first word is SET; comments aren't looked at.
pub fn first_word_decides()
    ensures other { (text : List ℕ) → says_first text (without_comments (tokens_of text)) (codes "SET") ≡ false → set_shape text ≡ SetShape.NotSet }
    ensures set { (text : List ℕ) → says_first text (without_comments (tokens_of text)) (codes "SET") ≡ true → set_shape text ≢ SetShape.NotSet }
{}

/// The changes that lead from settings to others do so, once they are made.
pub fn difference_leads()
    ensures { (from to : List SlotValue) → AreSettings from → AreSettings to → applied from (difference_of from to) ≡ to }
{}

/// Two statements can make a difference, where `Names` is wanted as a text.
pub fn difference_can_be_set()
    ensures { (from to : List SlotValue) → is_text (value_at to Slot.Names) ≡ true → CanBeSet (difference_of from to) }
{}

/// The two statements that make a difference are read as these very changes, where SET statements give the wanted
/// values: SET NAMES as that of `Names`, with `CharacterSetResults` and `CollationConnection` as defaults beside it, and SET SESSION as the others.
/// So the one statement and then the other lead to the wanted settings.
pub fn difference_read_again()
    ensures names { (from to : List SlotValue) (text : List ℕ) → AreTracked to → names_text (difference_of from to) ≡ Some text → set_shape text ≡ SetShape.Tracked (record { slot = Slot.Names; value = value_at to Slot.Names; adds = false } ∷ record { slot = Slot.CharacterSetResults; value = SlotValue.Default; adds = false } ∷ record { slot = Slot.CollationConnection; value = SlotValue.Default; adds = false } ∷ []) }
    ensures session { (from to : List SlotValue) (text : List ℕ) → AreTracked to → session_text (difference_of from to) ≡ Some text → set_shape text ≡ SetShape.Tracked (filter is_assigned (difference_of from to)) }
    ensures leads { (from to : List SlotValue) → AreSettings from → AreTracked to → applied (applied from (changes_by (names_text (difference_of from to)))) (changes_by (session_text (difference_of from to))) ≡ to }
{}

/// The modes of a session are a set: what an expression adds is named from then on, and a mode that is named isn't added
/// again. So a statement that is repeated adds nothing.
pub fn modes_are_a_set()
    ensures named { (old : SlotValue) (list : List ℕ) → IsTrackedValue Slot.SqlMode old → is_added_list list ≡ true → list_all (names_mode (named_by (added_to old (SlotValue.Text (joined_text own_mode list))))) (slice_split (λ b. nat_eq b 44) list) ≡ true }
    ensures stays { (old : SlotValue) (list : List ℕ) → list_all (names_mode (named_by old)) (slice_split (λ b. nat_eq b 44) list) ≡ true → added_to old (SlotValue.Text (joined_text own_mode list)) ≡ old }
    ensures again { (old : SlotValue) (list : List ℕ) → IsTrackedValue Slot.SqlMode old → is_added_list list ≡ true → added_to (added_to old (SlotValue.Text (joined_text own_mode list))) (SlotValue.Text (joined_text own_mode list)) ≡ added_to old (SlotValue.Text (joined_text own_mode list)) }
{}

/// What a SET statement gives is tracked, and so is what a collation gives: settings of which this holds stay so under
/// the changes of a SET statement.
pub fn settings_stay_tracked()
    ensures collation { (number : ℕ) → AreTracked (collation_settings number) }
    ensures applied { (text : List ℕ) (changes : List Change) (values : List SlotValue) → set_shape text ≡ SetShape.Tracked changes → AreTracked values → AreTracked (applied values changes) }
{}
