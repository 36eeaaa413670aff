// What is done with plans that are known to be plans (document 01, "Plans"). The desk's slots hold plans and nothing else, so that these
// functions ask for plans and check none; the crate `plans` makes the check for everyone else. Each promise is an equality with an
// answer of the crate `higman`, through the words that the packed numbers hold.
#![tactic(auto)]

ghost use Rattle.std.specs.Prelude.{◌≡◌};

pub mod answers;
pub mod closing;
pub mod comparing;
pub mod following;
pub mod keeping;
pub mod lent;
pub mod listing;
pub mod refusals;
pub mod routing;

pub use columns::MAX_PAIRS;
pub use lent::Lent;
use refusals::Refusal;
pub use tables::routing::{Image, Match};
use words::Shape;

// A shape and the pairs of a plan, or of a draft of one, at the first places of two columns; the other places are zero. Programs in C
// and Rust hold it too (the crate `plans_c`).
#[repr(C)]
#[derive(Clone, Copy)]
pub struct Plan {
    pub arity: u8,
    pub roots: u8,
    pub pairs: usize,
    pub from: [u64; MAX_PAIRS],
    pub to: [u64; MAX_PAIRS],
}

impl Plan {
    ghost use Rattle.std.specs.Prelude.{true};
    ghost use Rattle.words.specs.Bytes.{shape_of as the_shape};
    ghost use Rattle.operations.specs.Plans.{shape_of, plan_of, is_plan, lent_plan};

    pub fn shape(&self) -> Shape
        ensures { the_shape result ≡ shape_of self.now }
    {
        Shape {
            arity: self.arity,
            roots: self.roots,
        }
    }

    // The pairs of a kept plan.
    #[tactic(auto, using(crate::proofs::KeptValues::pairs_inside))]
    pub fn lent(&self) -> Lent<'_>
        requires { is_plan self.now ≡ true }
        ensures { lent_plan result ≡ plan_of self.now }
    {
        let shape = self.shape();
        let from = &self.from[..self.pairs];
        let to = &self.to[..self.pairs];
        Lent { shape, from, to }
    }
}

// "the verdict on a plan names the column and, within it, the reason": kept as cases that hold the reason, since document 01 names this
// form.
#[derive(Clone, Copy, PartialEq, Eq, Debug)]
pub enum Fault {
    InFrom(Reason),
    InTo(Reason),
}

// "A route replies with an image, a code too short, or another refusal." Kept as an enum of its own, since document 01 names this form.
#[derive(Clone, Copy, PartialEq, Eq)]
pub enum Route {
    // it stands at the front of the buffer
    Image(Image),
    // the code is a proper beginning of a from-word: 13
    TooShort,
    Refused(Refusal),
}

#[derive(Clone, Copy, PartialEq, Eq, Debug)]
pub enum Column {
    From,
    To,
}

// What is wrong with a column.
#[derive(Clone, Copy, PartialEq, Eq, Debug)]
pub enum Reason {
    // one word begins or equals another
    Overlap,
    // a belt isn't covered
    Gap,
}

// The letter of a column in a reply.
impl From<Column> for u8 {
    ghost use Rattle.operations.specs.Closing.{letter_of};

    ghost from_gives = { λ column letter. letter ≡ letter_of column };

    fn from(column: Column) -> u8 {
        match column {
            Column::From => b'F',
            Column::To => b'T',
        }
    }
}

impl From<Reason> for Refusal {
    ghost use Rattle.operations.specs.Closing.{refusal_of};

    ghost from_gives = { λ reason refusal. refusal ≡ refusal_of reason };

    fn from(reason: Reason) -> Refusal {
        match reason {
            Reason::Overlap => Refusal::WordsOverlap,
            Reason::Gap => Refusal::RootUncovered,
        }
    }
}
