// The classes of commands that have no text.
ghost use Rattle.std.specs.Prelude.{◌≡◌, None};
ghost use Rattle.pin_classifier.specs.declared.class.Shape.TheVariants.{Other};
ghost use Rattle.link_state.specs.Classes.{classless, plain_class, use_class};

use mx_base::Bytes;
use pin_classifier::{Class, Locking, Shape};

// One that does nothing that is looked at, or of which nothing is known.
fn classless(deep: bool, marks: bool, shape: Shape) -> Class
    ensures { result ≡ classless deep marks shape }
{
    Class {
        deep,
        locks: Locking::None,
        next_tx: false,
        savepoint: false,
        ends_tx: false,
        outlasts_reset: false,
        marks_id: marks,
        sets_id: false,
        reads_id: false,
        reads_diag: deep,
        reads_found: deep,
        keeps_diag: true,
        keeps_found: true,
        calc_rows: false,
        refusal: None,
        shape,
    }
}

pub(crate) fn plain_class(deep: bool, marks: bool) -> Class
    ensures { result ≡ plain_class deep marks }
{
    classless(deep, marks, Shape::Other)
}

/// The class of COM_INIT_DB with this schema. Takes no memory.
pub fn use_class(schema: Bytes) -> Class
    ensures { result ≡ use_class schema }
{
    classless(false, false, Shape::Use(schema))
}
