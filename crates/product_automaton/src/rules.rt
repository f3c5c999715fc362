//! The rules of a product over two flow graphs.
ghost use Rattle.std.specs.Prelude.{◌≡◌};
ghost use Rattle.product_automaton.specs.Rules.{number_of};

/// What is asked of a product, rule by rule in this order.
#[derive(Clone, Copy, Debug, PartialEq, Eq)]
pub enum Rule {
    /// How many nodes, edges, invariants and places of paths there are.
    Sizes,
    /// Which places the nodes have.
    Places,
    /// Which nodes and places the edges join.
    Paths,
    /// That empty paths lower ranks.
    Falls,
    /// How great ranks are.
    Ranks,
    /// What invariants may speak of.
    Invariants,
}

impl Rule {
    /// The number of the rule.
    pub fn number(self) -> u32
        ensures { result ≡ number_of self }
    {
        match self {
            Rule::Sizes => 1,
            Rule::Places => 2,
            Rule::Paths => 3,
            Rule::Falls => 4,
            Rule::Ranks => 5,
            Rule::Invariants => 6,
        }
    }

    /// A breach of the rule at this place.
    pub(crate) fn at(self, place: (u32, u32)) -> Breach
        ensures { result ≡ record { rule = number_of self; place = place } }
    {
        Breach {
            rule: self.number(),
            place,
        }
    }
}

/// A rule that is broken, by its number, and the place at which it is: numbers of nodes and edges, of sides
/// and of invariants, 0 where the rule has none.
#[derive(Clone, Copy, Debug, PartialEq, Eq)]
pub struct Breach {
    pub rule: u32,
    pub place: (u32, u32),
}
