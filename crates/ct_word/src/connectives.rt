// And and Or as one.

ghost use Rattle.std.specs.Prelude.{◌≡◌};
ghost use Rattle.ct_word.specs.Connective.{dual, unit};

/// What joins two conditions.
#[derive(Clone, Copy, Debug, PartialEq, Eq)]
pub enum Connective {
    And,
    Or,
}

impl Connective {
    /// The connective of the denials, where this joins the conditions.
    pub fn dual(self) -> Connective
        ensures { result ≡ dual self }
    {
        match self {
            Connective::And => Connective::Or,
            Connective::Or => Connective::And,
        }
    }

    /// The truth of no conditions under this connective.
    pub fn unit(self) -> bool
        ensures { result ≡ unit self }
    {
        self == Connective::And
    }
}
