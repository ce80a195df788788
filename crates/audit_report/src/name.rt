// Class names in order.
ghost use Rattle.std.specs.Prelude.{◌≡◌};
ghost use Rattle.audit_report.specs.Keys.{named, place_of};

use pin_classifier::ClassName;

// The name's place among the six in the order of their bytes.
pub(crate) fn place_of(name: ClassName) -> u8
    ensures { result ≡ place_of name }
{
    match name {
        ClassName::Deep => 0,
        ClassName::Diag => 1,
        ClassName::Locks => 2,
        ClassName::NextTx => 3,
        ClassName::Plain => 4,
        ClassName::Refused => 5,
    }
}

// The name at a place.
pub(crate) fn named(place: u8) -> ClassName
    ensures { result ≡ named place }
{
    match place {
        0 => ClassName::Deep,
        1 => ClassName::Diag,
        2 => ClassName::Locks,
        3 => ClassName::NextTx,
        4 => ClassName::Plain,
        _ => ClassName::Refused,
    }
}
