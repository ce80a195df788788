// Where a client stands.
ghost use Rattle.std.specs.Prelude.{◌≡◌, IfOk, OnOk};
ghost use Rattle.client_seat.specs.Seats.{first_place, place_by, schema_named};

use handshake::Response;
use mx_base::{Bytes, OutOfMemory};
use pin_classifier::{Class, Shape};
use session_state::Place;
use session_vars::{SetShape, Settings};
use std::alloc::Global;

// The schema that is named, or else the other.
fn schema_named<'a>(otherwise: &'a [u8], schema: &'a Option<Bytes>) -> &'a [u8]
    ensures { result.now ≡ schema_named otherwise.now schema.now }
{
    match schema {
        None => otherwise,
        Some(schema) => {
            let schema = schema.as_slice();
            if schema.is_empty() { otherwise } else { schema }
        }
    }
}

/// Where a client begins that logs in so: in the schema that it names, or else the default, with its collation.
pub fn first_place(
    alloc: Global,
    response: &Response,
    default_schema: &[u8],
) -> Result<Place, OutOfMemory>
    ensures { IfOk result (λ place. place ≡ first_place default_schema.now response.now) }
{
    let schema = schema_named(default_schema, &response.schema);
    Ok(Place {
        schema: Bytes::from_slice(alloc, schema)?,
        settings: Settings::for_collation(alloc, response.collation)?,
    })
}

/// Where a client stands behind a statement of this class, which was answered OK or not.
pub fn move_place(
    alloc: Global,
    place: &mut Place,
    class: &Class,
    ok: bool,
) -> Result<(), OutOfMemory>
    ensures { OnOk result (place.new ≡ place_by class.now ok place.old) }
{
    if !ok {
        return Ok(());
    }
    match &class.shape {
        Shape::Use(schema) => {
            place.schema = Bytes::from_slice(alloc, schema.as_slice())?;
            Ok(())
        }
        Shape::Set(SetShape::Tracked(changes)) => {
            place.settings.apply(changes.as_slice())?;
            Ok(())
        }
        _ => Ok(()),
    }
}
