//! What is proved of the definitions, apart from any code. A law is a function without a body,
//! whose contract is its statement.
ghost use Rattle.std.specs.Prelude.{ℕ, ◌≡◌, ◌++◌, ◌∷◌, List};
ghost use Rattle.sota_edge.specs.Desk.{Files, DeskState};
ghost use Rattle.sota_edge.specs.Sink.{SinkState, WrotePrefix};
ghost use Rattle.sota_network.specs.Network.{Net, IsNet};
ghost use Rattle.sota_network.specs.Grid.{lo, hi, choice};
ghost use Rattle.sota_script.specs.declared.command.Ask3.{Ask3};
ghost use Rattle.sota_session.specs.declared.ask.Ask.{Ask};
ghost use Rattle.sota_session.specs.declared.ask.Answer.{Answer};
ghost use Rattle.sota_app.specs.Script.{ScriptLine, network_after, replies_to};
ghost use Rattle.sota_app.specs.Meaning.{IsAnswered, IsJob, IsMeant};
ghost use Rattle.sota_app.specs.Outcome.{Job};
ghost use Rattle.sota_app.specs.Outputs.{Output, Begun, text_of, stores_of};
ghost use Rattle.sota_app.specs.Causes.{CanMiss};
ghost use Rattle.sota_app.specs.Laws.{IsAskedIn, example_words, example_files, example_line};
ghost use Rattle.sota_app.specs.Laws.{FirstStored};
ghost use Rattle.sota_app.specs.declared.voice.Voice.{Voice};
ghost use Rattle.sota_app.specs.declared.reply.Reply.{Reply};
ghost use Rattle.sota_app.specs.declared.reply.Reply.TheVariants.{Answered};
ghost use Rattle.sota_app.specs.declared.status.Status.{Status};

use sota_dimacs::laws::texts_mean_graphs;
use sota_hist::laws::built_times;
use sota_histcsv::laws::texts_mean_networks;
use sota_make::laws::made_networks;
use sota_network::laws::{edits_keep_networks, grid_encloses};

/// What a request means is to be done on a network that is one, and so is each network that lines
/// leave of it.
pub fn requests_have_networks()
    ensures valid { (words : List (List ℕ)) (files : Files) (net : Net) (job : Job)
        → IsJob words files net job → IsNet net }
    ensures lines { (net : Net) (lines : List ScriptLine) → IsNet net
        → IsNet (network_after net lines) }
{
    texts_mean_graphs();
    texts_mean_networks();
    built_times();
    edits_keep_networks();
    made_networks();
}

/// On each network the two values of an ask and its choice mean what an answer says.
pub fn answers_are_meant()
    ensures { (net : Net) (ask : Ask3) → IsNet net
        → IsMeant net ask (lo net ask.dest ask.origin ask.budget)
        (hi net ask.dest ask.origin ask.budget) (choice net ask.dest ask.origin ask.budget) }
{
    grid_encloses();
}

/// Each answer among the replies to lines is to an ask on one of them. So what the top call says of
/// the asks that are answered, it says of all answers that it writes.
pub fn answers_have_lines()
    ensures { (voice : Voice) (net : Net) (lines : List ScriptLine) (before after : List Reply)
        (ask : Ask) (answer : Answer)
        → replies_to net lines ≡ before ++ Answered ask answer ∷ after
        → IsAskedIn voice net lines ask }
{}

/// The ask of an example over three roads is answered.
pub fn an_answered_ask()
    ensures { IsAnswered example_words example_files example_line }
{}

/// Of outputs that were begun, as those of each call of `run` are, what was written is a prefix of
/// their text. Of their files a prefix was stored, and besides at most the name of the next one
/// holds bytes that are not known, and this only where a store failed or memory was wanted.
pub fn begun_outputs()
    ensures text { (status : Status) (outputs : List Output) (desk_old desk_new : DeskState)
        (sink_old sink_new : SinkState)
        → Begun (CanMiss status desk_old desk_new) outputs desk_old.holds desk_new.holds
        sink_old sink_new
        → WrotePrefix (text_of outputs) sink_old sink_new }
    ensures stores { (status : Status) (outputs : List Output) (desk_old desk_new : DeskState)
        (sink_old sink_new : SinkState)
        → Begun (CanMiss status desk_old desk_new) outputs desk_old.holds desk_new.holds
        sink_old sink_new
        → FirstStored (CanMiss status desk_old desk_new) (stores_of outputs)
        desk_old.holds desk_new.holds }
{}
