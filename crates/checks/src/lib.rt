// What checking one line of a script gives, from what checking its operands gave.
#![tactic(auto, unfolding(logic::specs::Booleans::both))]

pub mod expressions; // expressions.rt: an expression's type and least label
pub mod commands; // commands.rt: whether a command passes

ghost use Rattle.std.specs.Prelude.{◌≡◌};

use members::Members;

// What holds of all lines that were checked: their label conditions, and what trust-keeping asks of each unpack, an
// operand at or below the wanted label.
#[derive(Clone, Copy)]
pub struct Holds {
    pub flow: bool,
    pub keeping: bool,
}

impl Holds {
    ghost use Rattle.checks.specs.Internal.Nodes.{both_held};

    // Where nothing is asked, both hold.
    pub const ALL: Holds = Holds {
        flow: true,
        keeping: true,
    };

    // What holds of the lines of both.
    pub fn and(self, other: Holds) -> Holds
        ensures { result ≡ both_held self other }
    {
        Holds {
            flow: self.flow & other.flow,
            keeping: self.keeping & other.keeping,
        }
    }
}

// What is found of an expression: its type, if it has one; what holds of its lines; its least label; and the word after
// its lines. An Option of the type takes eight bytes more, which each frame of the recursion takes twice: past what the
// header states.
#[derive(Clone, Copy)]
pub struct Typed {
    pub ty: u32,
    pub typed: bool,
    pub holds: Holds,
    pub label: Members,
    pub next: usize,
}

impl Typed {
    ghost use Rattle.checks.specs.Internal.Nodes.{plain_typed};

    // An expression of a type, in which nothing is asked.
    pub fn plain(ty: u32, label: Members, next: usize) -> Typed
        ensures { result ≡ plain_typed ty label next }
    {
        Typed {
            ty,
            typed: true,
            holds: Holds::ALL,
            label,
            next,
        }
    }
}

// What is found of a command: whether its types fit; what holds of its lines; and the word after them.
#[derive(Clone, Copy)]
pub struct Passed {
    pub typed: bool,
    pub holds: Holds,
    pub next: usize,
}

impl Passed {
    ghost use Rattle.checks.specs.Internal.Nodes.{plain_passed};

    // A command in which nothing is asked.
    pub fn plain(typed: bool, next: usize) -> Passed
        ensures { result ≡ plain_passed typed next }
    {
        Passed {
            typed,
            holds: Holds::ALL,
            next,
        }
    }
}
