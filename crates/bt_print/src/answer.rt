//! The answers of the program. Each has a status and a text.
ghost use Rattle.std.specs.Prelude.{◌≡◌};
ghost use Rattle.bt_print.specs.Answers.{brief_status, gave_up_status, least_status, small_status, status_of};

use crate::columns::Columns;
use crate::made::Made;
use bt_cert::Cause;
use bt_cnf::Formula;
use bt_designs::Refusal;
use bt_extend::Definition;
use bt_flow::{Property, State, Test};
use bt_grids::{Small, Smallest};
use bt_log::Log;
use bt_net::Net;
use bt_parts::{Part, Priority, Rect};
use bt_place::Starts;
use bt_same::{Pair, Which};
use bt_theory::GaveUp;
use bt_words::BuiltText;

/// An answer whose text is one line that has to be formed: words, and numbers and names that are said with them.
#[derive(Clone, Copy)]
pub enum Brief {
    /// The read state breaks the property.
    Breaks(Property),
    /// The certificate shows that the design's network has the property.
    Yes(Property),
    /// The certificate's state breaks the property.
    No(Property),
    /// The certificate shows that no parts lay the request.
    NoLayout,
    /// The certificate shows that the networks of the designs behave the same.
    ShownSame,
    /// The certificate's pair of states shows that they differ.
    ShownDiffer,
    /// The design is refused.
    Refused(Refusal),
    /// A sum that a test at a place needs leaves 128 bits.
    WideState(Test, usize),
    /// A sum that a test of a state of the pair needs, at a place, leaves 128 bits.
    WidePair(Which, Test, usize),
    /// This line, from 1, isn't one of a written state or of a certificate that belongs there.
    CertLine(usize),
    /// The step on this line isn't valid.
    BadStep(usize, Cause),
    /// The steps of the certificate end without the empty clause.
    NoVerdict,
    /// The sum of a lemma leaves 128 bits: the line, and the row and the column in the sum.
    CertWide(usize, usize, usize),
    /// The read state doesn't break the property: the first test that fails, and its place.
    NotBreaking(Test, usize),
    /// The read pair shows no difference: of what the first test is that fails, which it is, and its place.
    NotDiffering(Which, Test, usize),
}

/// What a command answers, once its words and its input are known.
#[derive(Drop)]
pub enum Answer {
    /// What is said in one line.
    Brief(Brief),
    /// The words are no command.
    Usage,
    /// The input is longer than the command reads.
    TooLong,
    /// The design has this network.
    Recovered(Net),
    /// The design's network has the property, which the log shows over the formula that the definitions extend.
    Proved(Property, Vec<Definition>, Log),
    /// The state of the design's network breaks the property.
    Broken(Property, State),
    /// The search for a layout was given up.
    GaveUp(GaveUp),
    /// Deciding was given up. A log is over the formula that the definitions extend.
    Undecided(Vec<Definition>, GaveUp),
    /// Whether a network that was made is balanced.
    Made(Made),
    /// The parts with these priorities lay the request.
    LaidOut(Vec<Part>, Vec<Priority>),
    /// No parts lay the request, which the log shows.
    Nowhere(Log),
    /// No layout was found of a request without a formula, or of one for which greater grids are searched than those of which
    /// formulas are written; or no network is known that is shown to be as a wish wants it. There may be one.
    NotFound,
    /// With which grid a search for the least grid began on which parts show a network, where one was named, and what it
    /// came to; and the priorities of the parts that it found.
    Least(Option<Rect>, Smallest, Vec<Priority>),
    /// What looking for small grids on which parts show a network comes to, and the priorities of the parts that it found.
    Small(Small, Vec<Priority>),
    /// The flow formula of the design's network and a property.
    FlowFormula(Columns, Formula),
    /// The placement formula of the request, and where the blocks of its variables begin.
    PlaceFormula(Starts, Formula),
    /// The networks of the designs behave the same, which the log shows over the formula that the definitions extend.
    Same(Vec<Definition>, Log),
    /// The pair of states shows that the networks of the designs differ.
    Differ(Pair),
    /// A network that has each wished property, and as what it is written.
    Built(Net, BuiltText),
}

impl Brief {
    /// The status with which the program ends, but for a fault of the sink or want of memory.
    pub fn status(self) -> u8
        ensures { result ≡ brief_status self }
    {
        match self {
            Brief::Breaks(_) | Brief::Yes(_) | Brief::ShownSame => 0,
            Brief::No(_) | Brief::NoLayout | Brief::ShownDiffer => 1,
            Brief::Refused(_) => 3,
            Brief::WideState(..) | Brief::WidePair(..) => 5,
            Brief::CertLine(_)
            | Brief::BadStep(..)
            | Brief::NoVerdict
            | Brief::CertWide(..)
            | Brief::NotBreaking(..)
            | Brief::NotDiffering(..) => 9,
        }
    }
}

impl Answer {
    /// The status with which the program ends, but for a fault of the sink or want of memory.
    pub fn status(&self) -> u8
        ensures { result ≡ status_of self.now }
    {
        match self {
            Answer::Brief(brief) => brief.status(),
            Answer::Usage => 2,
            Answer::TooLong => 11,
            Answer::NotFound => 12,
            Answer::Recovered(_)
            | Answer::Proved(..)
            | Answer::LaidOut(..)
            | Answer::FlowFormula(..)
            | Answer::PlaceFormula(..)
            | Answer::Same(..)
            | Answer::Built(..) => 0,
            Answer::Broken(..) | Answer::Nowhere(_) | Answer::Differ(_) => 1,
            Answer::GaveUp(cause) | Answer::Undecided(_, cause) => gave_up_status(cause),
            Answer::Made(made) => made.status(),
            Answer::Least(_, found, _) => least_status(found),
            Answer::Small(found, _) => small_status(found),
        }
    }
}

/// The status of a search for the least grid.
fn least_status(found: &Smallest) -> u8
    ensures { result ≡ least_status found.now }
{
    match found {
        Smallest::Found { .. } => 0,
        Smallest::Nowhere(_) => 1,
        Smallest::Spent { .. } => 4,
    }
}

/// The status of a search for small grids.
fn small_status(found: &Small) -> u8
    ensures { result ≡ small_status found.now }
{
    match found {
        Small::Found { .. } => 0,
        Small::Spent(_) => 4,
    }
}

/// The status where a search was given up.
fn gave_up_status(cause: &GaveUp) -> u8
    ensures { result ≡ gave_up_status cause.now }
{
    match cause {
        GaveUp::Spent(_) => 4,
        GaveUp::Wide(_) => 5,
        GaveUp::Pivots(_) => 10,
    }
}
