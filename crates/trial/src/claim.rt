//! The claims on the boards: what they say, how a tray builds them, and whether a recorded word meets them.
//! Sets 0 and 1 are the numbers that a board takes, set 2 is what it makes of them, and set 3 helps to build a claim.
ghost use Rattle.std.specs.Prelude.{ℕ, List, Decides};
ghost use Rattle.trial.specs.Claims.{Says};
ghost use Rattle.trial.specs.Examined.{Found};

use crate::finding::Finding;
use crate::recording::Board;
use books::Standard;
use calls::Call;
use std::fmt;

/// How many sets a claim is built over.
pub const SETS: usize = 4;

/// A claim on a board.
#[derive(Clone, Copy, PartialEq, Eq, Debug)]
pub enum Claim {
    /// The third number is the sum of the two others.
    Adds,
    /// The two numbers have a sum.
    HasSum,
    /// Where the second number is 1, the third is the sum.
    CountsOn,
    /// Where the second number is 1, there is a sum.
    HasNext,
    /// The second number is 1, the first and the third are the same, and the third is the sum.
    Sticks,
}

const OF_ADDER: [Claim; 2] = [Claim::HasSum, Claim::Adds];

const OF_COUNTER: [Claim; 3] = [Claim::HasNext, Claim::Sticks, Claim::CountsOn];

// The sum, and then the output hidden. The first call alone says that the output is the sum.
static HAS_SUM: [Call; 2] = [Call::Place(Standard::SUM, &[0, 1, 2]), Call::Hide(2)];

// Set 1 is the number 1, which is the set {0}: it has one member, which no position comes before. The last call hides the
// output of the claim that the others build.
static HAS_NEXT: [Call; 9] = [
    Call::Place(Standard::SUC, &[3, 1]),
    Call::Hide(3),
    Call::Negate,
    Call::Single(1),
    Call::Both,
    Call::Negate,
    Call::Place(Standard::SUM, &[0, 1, 2]),
    Call::Either,
    Call::Hide(2),
];

static STICKS: [Call; 11] = [
    Call::Place(Standard::SUC, &[3, 1]),
    Call::Hide(3),
    Call::Negate,
    Call::Single(1),
    Call::Both,
    Call::Place(Standard::SUB, &[0, 2]),
    Call::Both,
    Call::Place(Standard::SUB, &[2, 0]),
    Call::Both,
    Call::Place(Standard::SUM, &[0, 1, 2]),
    Call::Both,
];

impl Board {
    /// The claims on the board, in the order in which they are told.
    pub fn claims(self) -> &'static [Claim] {
        match self {
            Board::Adder => &OF_ADDER,
            Board::Counter => &OF_COUNTER,
        }
    }
}

impl Claim {
    /// The calls that build the claim on an empty tray.
    pub fn calls(self) -> &'static [Call<'static>] {
        match self {
            Claim::Adds => &HAS_SUM[..1],
            Claim::HasSum => &HAS_SUM,
            Claim::CountsOn => &HAS_NEXT[..8],
            Claim::HasNext => &HAS_NEXT,
            Claim::Sticks => &STICKS,
        }
    }

    /// Whether the recorded word that a finding is about meets the claim.
    pub fn meets(self, finding: &Finding) -> bool
        ensures { (w : List ℕ) → Found w finding.now → Decides result (Says self w) }
    {
        match self {
            Claim::Adds => finding.right,
            Claim::CountsOn => finding.second != 1 || finding.right,
            Claim::HasSum | Claim::HasNext => true,
            Claim::Sticks => {
                finding.second == 1 && finding.first == finding.said && finding.right
            }
        }
    }
}

impl fmt::Display for Claim {
    fn fmt<W: fmt::Write>(&self, f: &mut fmt::Formatter<W>) -> fmt::Result {
        f.write_str(match self {
            Claim::Adds => "the board's output is the sum of its inputs",
            Claim::HasSum => "the inputs have a sum",
            Claim::CountsOn => "if the second number is 1, the next count is the sum",
            Claim::HasNext => "every count has a next count",
            Claim::Sticks =>
                "a counter that sticks is right: the second number is 1, and the next count is both the count and the sum",
        })
    }
}
