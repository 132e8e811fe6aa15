// A law of the definitions: each query has a number of words.

ghost use Rattle.std.specs.Prelude.{ℕ, List, IfOk, IsSome};
ghost use Rattle.ct_parse.specs.declared.tree.Query.{Query};
ghost use Rattle.ct_query.specs.declared.schema.Heading.{Heading};
ghost use Rattle.ct_query.specs.Bounds.{query_words};
ghost use Rattle.ct_resolve.specs.Queries.{query_at};

/// Each query that a text asks for has a number of words, whatever the counts of rows: it is a projection of a selection of a
/// product of tables, or a set operator over such queries. So its bound is that number, and never the greatest of 64 bits for
/// want of one.
pub fn queries_have_numbers()
    ensures { (schema : List Heading) (q : Query) → IfOk (query_at schema q) (λ a. (counts : List ℕ → ℕ) → IsSome (query_words counts a.query)) }
{}
