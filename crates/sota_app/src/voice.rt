// How lines are read, and how their replies are spelled.
ghost use Rattle.std.specs.Prelude.{◌≡◌, ◌≤◌, length, IfOk, IfSome};
ghost use Rattle.sota_units.specs.Limits.{TEXT_LIMIT};
ghost use Rattle.sota_units.specs.Memory.{Answers};
ghost use Rattle.sota_script.specs.Few.{HasFewPairs};
ghost use Rattle.sota_app.specs.Replies.{is_shortage, spell};
ghost use Rattle.sota_app.specs.Script.{parse_in};

use crate::reply::{Refusal, Reply};
use sota_report::{Names, reply_json, resolve};
use sota_script::{Command, read_line};
use sota_units::NoMemory;
use std::alloc::Global;

/// How lines are read, and how their replies are spelled.
#[derive(Drop)]
pub enum Voice {
    /// Lines stand for themselves. Replies are words and numbers with one space between.
    Plain,
    /// Nodes may have these names in lines. Replies are JSON objects.
    Json(Names),
}

impl Voice {
    /// What a line asks for.
    pub fn read(&self, alloc: Global, line: &[u8]) -> Result<Option<Command>, Refusal>
        requires { length line.now ≤ TEXT_LIMIT }
        ensures meaning { Answers is_shortage result (parse_in self.now line.now) }
        ensures few { IfOk result (λ read. IfSome read (λ command. HasFewPairs command)) }
    {
        match self {
            Voice::Plain => Ok(read_line(alloc, line)?),
            Voice::Json(names) => {
                let resolved = resolve(alloc, names, line)?;
                Ok(read_line(alloc, &resolved)?)
            }
        }
    }

    /// The line of a reply.
    pub fn spell(&self, alloc: Global, reply: &Reply) -> Result<Vec<u8>, NoMemory>
        ensures { IfOk result (λ line. line.items ≡ spell self.now reply.now) }
    {
        match self {
            Voice::Plain => Ok(reply.line(alloc)?.into_vec()),
            Voice::Json(names) => {
                let report = reply.report(alloc)?;
                let mut line = reply_json(alloc, names, &report)?;
                line.push(b'\n')?;
                Ok(line)
            }
        }
    }
}
