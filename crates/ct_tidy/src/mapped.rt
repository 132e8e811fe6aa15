// The values of a world, found by their nulls.

ghost use Rattle.std.specs.Prelude.{◌≡◌, IfOk};
ghost use Rattle.ct_word.specs.Value.{value_of_null};
ghost use Rattle.ct_tidy.specs.Order.{IsMapOf};

use ct_word::{Memory, Null, Value, World};
use indexmap::IndexMap;
use std::alloc::{AllocError, Global};

/// The values that a world lists, by their nulls; the first one, where it has a null twice.
///
/// # Errors
/// `Memory` where there is none for them.
pub fn by_null(alloc: Global, world: &World) -> Result<IndexMap<Null, Value>, Memory>
    ensures { IfOk result (λ values. IsMapOf values.entries world.now) }
{
    let pairs = world.as_slice();
    let mut values = IndexMap::new(alloc);
    let mut next = pairs.len();
    while next > 0 {
        next -= 1;
        let (null, value) = pairs[next].clone()?;
        drop(values.insert(null, value)?);
    }
    Ok(values)
}

/// The value of a null, by the values that a world lists; `@0` where it lists none.
///
/// # Errors
/// Where there is no memory for a copy.
pub fn value_of(
    world: &World,
    values: &IndexMap<Null, Value>,
    null: &Null,
) -> Result<Value, AllocError>
    requires { IsMapOf values.now.entries world.now }
    ensures { IfOk result (λ x. x ≡ value_of_null world.now null.now) }
{
    let _ = world;
    match values.get(null) {
        Some(value) => {
            let copy = value.clone()?;
            Ok(copy)
        }
        None => Ok(Value::Other(0)),
    }
}
