// Tables by their names.

ghost use Rattle.std.specs.Prelude.{◌≡◌, None, Some, MatchOption};
ghost use Rattle.ct_headings.specs.Named.{heading_in};

use ct_query::{Heading, Schema};
use ct_word::Text;

/// The names and columns of tables, each found by its name. Where there are many tables, one that finds a name without
/// going along them all is to be had: that of a database is in `ct_table`.
pub trait Headings {
    ghost use Rattle.ct_query.specs.declared.schema.Schema.{Schema};

    /// The tables, in the order of their creation.
    ghost schema: { Self → Schema };

    /// The first table with this name; none where there is none.
    fn heading(&self, name: &Text) -> Option<&Heading>
        ensures { MatchOption result (heading_in (schema self.now).tables name.now ≡ None) (λ h. heading_in (schema self.now).tables name.now ≡ Some h.now) };
}

/// A list of tables, gone along from the first.
impl Headings for Schema {
    ghost schema = { λ s. s };

    fn heading(&self, name: &Text) -> Option<&Heading> {
        for heading in self.tables.as_slice() {
            if heading.name.as_str() == name.as_str() {
                return Some(heading);
            }
        }
        None
    }
}
