//! The top call: it reads the words and the files that they name, and writes the replies.
#![tactic(auto)]

mod checking;
mod input;
mod inputs;
pub mod laws;
mod line;
mod output;
mod periods;
mod player;
mod reply;
mod showing;
mod status;
mod stop;
mod timing;
mod top;
mod voice;
mod words;

pub use status::Status;
pub use top::run;
