// Inputs that are not accepted.
ghost use Rattle.std.specs.Prelude.{◌≡◌, IfOk};
ghost use Rattle.sota_app.specs.InputFaults.{input_word, input_limit};
ghost use Rattle.sota_app.specs.InputFaults.{fault_input, fault_word, fault_place, fault_line};

use crate::line::LineOut;
use sota_dimacs::GraphFault;
use sota_histcsv::HistFileFault;
use sota_polfile::{POLICY_LIMIT, PolicyFault};
use sota_report::NamesFault;
use sota_text::TextOut;
use sota_units::{NoMemory, TEXT_LIMIT};
use std::alloc::Global;

/// An input of a request.
#[derive(Clone, Copy, Debug, PartialEq, Eq)]
pub enum Input {
    Graph,
    Hists,
    Script,
    Policy,
    Names,
}

impl Input {
    /// Its name in a reply.
    fn word(self) -> &'static [u8]
        ensures { result.now ≡ input_word self }
    {
        match self {
            Input::Graph => b"graph",
            Input::Hists => b"hists",
            Input::Script => b"script",
            Input::Policy => b"policy",
            Input::Names => b"names",
        }
    }

    /// The most bytes that it may have.
    pub fn limit(self) -> u32
        ensures { result ≡ input_limit self }
    {
        match self {
            Input::Graph | Input::Hists | Input::Script | Input::Names => TEXT_LIMIT,
            Input::Policy => POLICY_LIMIT,
        }
    }
}

/// Why an input is not accepted.
#[derive(Clone, Copy, Debug, PartialEq, Eq)]
pub enum InputFault {
    /// The input has more bytes than its limit.
    TooLong(Input),
    /// The graph's text has this fault.
    Graph(GraphFault),
    /// The histograms have this fault, or the arcs that have none.
    Hists(HistFileFault),
    /// The policy file has this fault.
    Policy(PolicyFault),
    /// The file of place names has this fault.
    Names(NamesFault),
    /// The masses of the period at this place, counted from 0, are over another denominator than
    /// those of the first.
    ScaleDiffers(u32),
}

/// Why there is no input.
#[derive(Clone, Copy, Debug, PartialEq, Eq)]
pub enum NoInput {
    /// It is not accepted.
    Fault(InputFault),
    /// It could not be loaded, or is not there.
    Unread,
    /// Memory was wanted, and there was none. It says nothing of the input.
    NoMemory,
}

impl InputFault {
    /// The input that has it.
    fn input(self) -> Input
        ensures { result ≡ fault_input self }
    {
        match self {
            InputFault::TooLong(input) => input,
            InputFault::Graph(_) => Input::Graph,
            InputFault::Hists(_) => Input::Hists,
            InputFault::Policy(_) => Input::Policy,
            InputFault::Names(_) => Input::Names,
            InputFault::ScaleDiffers(_) => Input::Hists,
        }
    }

    /// Its name.
    fn word(self) -> &'static [u8]
        ensures { result.now ≡ fault_word self }
    {
        match self {
            InputFault::TooLong(_) => b"TooLong",
            InputFault::Graph(fault) => fault.word(),
            InputFault::Hists(fault) => fault.word(),
            InputFault::Policy(fault) => fault.word(),
            InputFault::Names(fault) => fault.word(),
            InputFault::ScaleDiffers(_) => b"ScaleDiffers",
        }
    }

    /// The number that it carries.
    fn place(self) -> u64
        ensures { result ≡ fault_place self }
    {
        match self {
            InputFault::TooLong(input) => u64::from(input.limit()),
            InputFault::Graph(fault) => u64::from(fault.place()),
            InputFault::Hists(fault) => u64::from(fault.place()),
            InputFault::Policy(fault) => fault.place(),
            InputFault::Names(fault) => u64::from(fault.place()),
            InputFault::ScaleDiffers(place) => u64::from(place),
        }
    }

    /// The line `refused KIND CAUSE PLACE`.
    pub fn line(self, alloc: Global) -> Result<TextOut, NoMemory>
        ensures { IfOk result (λ text. text ≡ fault_line self) }
    {
        let mut line = LineOut::new(alloc, b"refused")?;
        line.word(self.input().word())?;
        line.word(self.word())?;
        line.number(self.place())?;
        line.end()
    }
}
