// Copies of classes.
ghost use Rattle.std.specs.Prelude.{◌≡◌, IfOk};

use mx_base::{Bytes, OutOfMemory};
use pin_classifier::{Class, Shape};
use session_vars::{Change, Changes, SetShape};
use std::alloc::Global;

fn change_of(alloc: Global, change: &Change) -> Result<Change, OutOfMemory>
    ensures { IfOk result (λ copy. copy ≡ change.now) }
{
    Ok(Change {
        slot: change.slot,
        value: change.value.copy(alloc)?,
        adds: change.adds,
    })
}

fn changes_of(alloc: Global, changes: &[Change]) -> Result<Changes, OutOfMemory>
    ensures { IfOk result (λ copy. copy ≡ changes.now) }
{
    let mut copy = Changes::new(alloc);
    for change in changes {
        copy.push(change_of(alloc, change)?)?;
    }
    Ok(copy)
}

fn set_of(alloc: Global, shape: &SetShape) -> Result<SetShape, OutOfMemory>
    ensures { IfOk result (λ copy. copy ≡ shape.now) }
{
    match shape {
        SetShape::Tracked(changes) => Ok(SetShape::Tracked(changes_of(alloc, changes.as_slice())?)),
        SetShape::Global => Ok(SetShape::Global),
        SetShape::NextTransaction => Ok(SetShape::NextTransaction),
        SetShape::Other => Ok(SetShape::Other),
        SetShape::NotSet => Ok(SetShape::NotSet),
    }
}

fn shape_of(alloc: Global, shape: &Shape) -> Result<Shape, OutOfMemory>
    ensures { IfOk result (λ copy. copy ≡ shape.now) }
{
    match shape {
        Shape::ConnectionId => Ok(Shape::ConnectionId),
        Shape::Use(schema) => Ok(Shape::Use(Bytes::from_slice(alloc, schema.as_slice())?)),
        Shape::Set(set) => Ok(Shape::Set(set_of(alloc, set)?)),
        Shape::Other => Ok(Shape::Other),
    }
}

/// A copy of a class. It takes memory only for a USE and a SET.
pub fn copy_of(alloc: Global, class: &Class) -> Result<Class, OutOfMemory>
    ensures { IfOk result (λ copy. copy ≡ class.now) }
{
    Ok(Class {
        deep: class.deep,
        locks: class.locks,
        next_tx: class.next_tx,
        savepoint: class.savepoint,
        ends_tx: class.ends_tx,
        outlasts_reset: class.outlasts_reset,
        marks_id: class.marks_id,
        sets_id: class.sets_id,
        reads_id: class.reads_id,
        reads_diag: class.reads_diag,
        reads_found: class.reads_found,
        keeps_diag: class.keeps_diag,
        keeps_found: class.keeps_found,
        calc_rows: class.calc_rows,
        refusal: class.refusal,
        shape: shape_of(alloc, &class.shape)?,
    })
}
