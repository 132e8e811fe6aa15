// Copies of values, nulls and terms, which are what they copy.

ghost use Rattle.std.specs.Prelude.{◌≡◌};

use crate::values::{Null, Term, Value};
use std::alloc::AllocError;

impl Clone for Value {
    ghost is_clone = { λ a b. b ≡ a };

    fn clone(&self) -> Result<Value, AllocError> {
        match self {
            Value::Int(n) => Ok(Value::Int(*n)),
            Value::Text(t) => Ok(Value::Text(t.clone()?)),
            Value::Other(k) => Ok(Value::Other(*k)),
        }
    }
}

impl Clone for Null {
    ghost is_clone = { λ a b. b ≡ a };

    fn clone(&self) -> Result<Null, AllocError> {
        match self {
            Null::Named(t) => Ok(Null::Named(t.clone()?)),
            Null::Fresh { session, number } => Ok(Null::Fresh {
                session: *session,
                number: *number,
            }),
        }
    }
}

impl Clone for Term {
    ghost is_clone = { λ a b. b ≡ a };

    fn clone(&self) -> Result<Term, AllocError> {
        match self {
            Term::Column(k) => Ok(Term::Column(*k)),
            Term::Null(n) => Ok(Term::Null(n.clone()?)),
            Term::Value(x) => Ok(Term::Value(x.clone()?)),
        }
    }
}
