//! Kinds of state that can be explored.
ghost use Rattle.std.specs.Prelude.{◌≡◌, Decides};
ghost use Rattle.words.specs.Automata.{Moves};

/// An automaton over states of some type: where it starts, where a column leads, and which states accept.
///
/// Its law is in the contracts. Each answer is that of the ghost automaton `moves`, which is a function of the
/// state; and `same` tells whether two states are equal. So no two states that are the same can be told apart.
pub trait Kind {
    type State: Copy + Clone + Drop;

    ghost moves: { Self → Moves Self.State };

    /// The state in which every run begins.
    fn start(&self) -> Self::State
        ensures { result ≡ (moves self.now).start };

    /// The state to which a column leads.
    fn step(&self, state: Self::State, column: u8) -> Self::State
        ensures { result ≡ (moves self.now).next state column };

    /// Whether a run that ends in this state accepts.
    fn accepts(&self, state: Self::State) -> bool
        ensures { result ≡ (moves self.now).final state };

    /// Whether two states are the same.
    fn same(&self, a: Self::State, b: Self::State) -> bool
        ensures { Decides result (a ≡ b) };
}
