// The law of planned queries.

ghost use Rattle.std.specs.Prelude.{List};
ghost use Rattle.ct_query.specs.declared.schema.Heading.{Heading};
ghost use Rattle.ct_query.specs.Plain.{PlainQuery};
ghost use Rattle.ct_query.specs.Fits.{Fits};
ghost use Rattle.ct_plan.specs.Planned.{planned};
ghost use Rattle.ct_plan.specs.Replaces.{Replaces};

/// A query that fits a schema may be evaluated as it is planned: it then gives the same list of tuples on every database
/// with the schema, within the words of the query where these are bounded.
pub fn planned_replaces()
    ensures { (s : List Heading) (q : PlainQuery) → Fits s q → Replaces s q (planned s q) }
{}
