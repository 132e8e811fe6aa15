// Rows that a row is compared with.

ghost use Rattle.std.specs.Prelude.{◌≡◌, ◌<◌, length, get_or};
ghost use Rattle.ct_operators.specs.Others.{others_of, AreAmong, at_places};

use ct_word::CRow;

/// Rows that a row is compared with.
#[derive(Clone, Copy)]
pub(crate) enum Others<'a> {
    /// All of these.
    All(&'a [CRow]),
    /// Those at these places among them.
    At(&'a [CRow], &'a [u32]),
}

impl<'a> Others<'a> {
    /// How many they are.
    pub fn len(self) -> usize
        ensures { result ≡ length (others_of self.entry) }
    {
        match self {
            Others::All(rows) => rows.len(),
            Others::At(_, places) => places.len(),
        }
    }

    /// One of them.
    pub fn nth(self, index: usize) -> &'a CRow
        requires among { AreAmong self }
        requires within { index < length (others_of self) }
        ensures { result.now ≡ get_or (others_of self.entry) index result.now }
    {
        match self {
            Others::All(rows) => &rows[index],
            Others::At(rows, places) => &rows[places[index] as usize],
        }
    }

    /// Those at these places among all.
    pub fn at(self, places: &'a [u32]) -> Others<'a>
        ensures { result ≡ at_places places.entry self.entry }
    {
        match self {
            Others::All(rows) => Others::At(rows, places),
            Others::At(rows, _) => Others::At(rows, places),
        }
    }
}
