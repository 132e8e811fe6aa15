// Values in a world.

ghost use Rattle.std.specs.Prelude.{◌≡◌};
ghost use Rattle.ct_word.specs.Value.{other_zero, same_value};
ghost use Rattle.ct_condition.specs.Nulls.{value_with};

use ct_word::{Null, Value};

/// Whether two values are the same.
pub(crate) fn are_same(x: &Value, y: &Value) -> bool
    ensures { result ≡ same_value x.now y.now }
{
    match (x, y) {
        (Value::Int(i), Value::Int(j)) => i == j,
        (Value::Text(t), Value::Text(u)) => t.as_str() == u.as_str(),
        (Value::Other(j), Value::Other(k)) => j == k,
        _ => false,
    }
}

/// The value of the pair with a number; `@0`, which is handed in, past the last one.
pub(crate) fn value_with<'a>(
    pairs: &'a [(Null, Value)],
    zero: &'a Value,
    number: usize,
) -> &'a Value
    requires { zero.now ≡ other_zero }
    ensures { result.now ≡ value_with pairs.now number }
{
    match pairs.get(number) {
        Some(pair) => &pair.1,
        None => zero,
    }
}
