// Whether a link was told just what a client wants, and whether the router is logged in there as the client is.
ghost use Rattle.std.specs.Prelude.{◌≡◌, false};
ghost use Rattle.std.specs.List.{list_all};
ghost use Rattle.session_vars.specs.Settings.{same_value, value_at};
ghost use Rattle.session_vars.specs.Slots.{all_slots};
ghost use Rattle.link_state.specs.Places.{is_schema};
ghost use Rattle.client_seat.specs.Seats.{account_in};
ghost use Rattle.std.specs.Option.{option_map_or};
ghost use Rattle.core_tables.specs.Passing.{are_settings, is_account, is_placed};

use client_seat::Phase;
use mx_base::Bytes;
use served_link::Identity;
use session_state::{Place, Told};
use session_vars::{Settings, Slot, SlotValue};

fn same_value(a: &SlotValue, b: &SlotValue) -> bool
    ensures { result ≡ same_value a.now b.now }
{
    match (a, b) {
        (SlotValue::Default, SlotValue::Default) => true,
        (SlotValue::Text(a), SlotValue::Text(b)) => a.as_slice() == b.as_slice(),
        _ => false,
    }
}

// Each setting has the same value.
fn same_values(a: &Settings, b: &Settings) -> bool
    ensures { result ≡ list_all (λ slot. same_value (value_at a.now slot) (value_at b.now slot)) all_slots }
{
    Slot::ALL
        .iter()
        .all(|slot| same_value(a.value(*slot), b.value(*slot)))
}

fn are_settings(a: &Settings, b: &Settings) -> bool
    ensures { result ≡ are_settings a.now b.now }
{
    let _first = a.value(Slot::Names);
    let _other = b.value(Slot::Names);
    same_values(a, b)
}

fn is_schema(told: &Option<Bytes>, schema: &Bytes) -> bool
    ensures { result ≡ is_schema told.now schema.now }
{
    match told {
        Some(told) => told.as_slice() == schema.as_slice(),
        None => false,
    }
}

/// The link was told just this.
pub(crate) fn is_placed(told: &Told, place: &Place) -> bool
    ensures { result ≡ is_placed told.now place.now }
{
    is_schema(&told.schema, &place.schema) && are_settings(&told.settings, &place.settings)
}

/// The router is logged in there as this client is, if that is.
pub(crate) fn is_account(identity: &Identity, phase: &Phase) -> bool
    ensures { result ≡ option_map_or (is_account identity.now) (account_in phase.now) false }
{
    match phase {
        Phase::Serving(account) => {
            identity.user.as_slice() == account.user()
                && identity.found_rows == account.found_rows()
        }
        _ => false,
    }
}
