// The JSON objects of replies.
ghost use Rattle.std.specs.Prelude.{◌≡◌, IfOk, option_map};
ghost use Rattle.serde_json.specs.Data.{object};
ghost use Rattle.serde_json.specs.View.{view};
ghost use Rattle.sota_report.specs.Objects.{reply_members, refused_members, reply_text};
ghost use Rattle.sota_report.specs.Objects.{whole_or_null, text_or_null};
ghost use Rattle.sota_report.specs.declared.reply.Reply.TheVariants as replies;

use crate::{Names, Reply};
use serde_json::{Value, json};
use sota_units::{Grain, NoMemory};
use std::alloc::{AllocError, Global};

/// The JSON object of a reply, in one line without its end: the keys rise, and no blank stands
/// between its parts. Bounds and confidences are in units of ten to the minus eighteenth. A node
/// has its first name beside it, and what is not there is null.
pub fn reply_json(alloc: Global, names: &Names, reply: &Reply) -> Result<Vec<u8>, NoMemory>
    ensures { IfOk result (λ bytes. bytes.items ≡ reply_text names.now reply.now) }
{
    let object = reply_object(alloc, names, reply)?;
    Ok(object.to_vec(alloc)?)
}

/// The object of a reply.
fn reply_object(alloc: Global, names: &Names, reply: &Reply) -> Result<Value, AllocError>
    ensures { IfOk result (λ value. view value ≡ object (reply_members names.now reply.now)) }
{
    match reply {
        Reply::Answer {
            origin,
            dest,
            budget,
            lower,
            upper,
            arc,
        } => {
            answer_object(
                alloc,
                names,
                (*origin, *dest),
                *budget,
                (*lower, *upper),
                *arc,
            )
        }
        Reply::Edited(arc) => json!(in alloc; {"arc": *arc, "kind": "edited"}),
        Reply::Closed(arc) => json!(in alloc; {"arc": *arc, "kind": "closed"}),
        Reply::Stored(name) => json!(in alloc; {"kind": "stored", "name": name.as_str()}),
        Reply::Need {
            origin,
            dest,
            confidence,
            most,
            early,
            sure,
        } => {
            need_object(
                alloc,
                names,
                (*origin, *dest),
                *confidence,
                *most,
                (*early, *sure),
            )
        }
        Reply::Route {
            dest,
            budget,
            lower,
            upper,
            arcs,
        } => { route_object(alloc, names, *dest, *budget, (*lower, *upper), *arcs) }
        Reply::Refused { line, cause, count } => {
            refused_object(alloc, *line, cause.as_str(), *count)
        }
    }
}

/// The object of an answer between two nodes, with its two bounds and the arc to take first.
fn answer_object(
    alloc: Global,
    names: &Names,
    ends: (u32, u32),
    budget: u32,
    bounds: (Grain, Grain),
    arc: Option<u32>,
) -> Result<Value, AllocError>
    ensures { IfOk result (λ value. view value ≡ object (reply_members names.now
        (replies.Answer ends.0 ends.1 budget bounds.0 bounds.1 arc))) }
{
    let from = text_or_null(alloc, names.first(ends.0))?;
    let to = text_or_null(alloc, names.first(ends.1))?;
    json!(in alloc; {
        "arc": whole_or_null(arc),
        "budget": budget,
        "dest": ends.1,
        "from": from,
        "kind": "answer",
        "lower": bounds.0.get(),
        "origin": ends.0,
        "to": to,
        "upper": bounds.1.get()
    })
}

/// The object of a need between two nodes, with the two least budgets that were found.
fn need_object(
    alloc: Global,
    names: &Names,
    ends: (u32, u32),
    confidence: Grain,
    most: u32,
    least: (Option<u32>, Option<u32>),
) -> Result<Value, AllocError>
    ensures { IfOk result (λ value. view value ≡ object (reply_members names.now
        (replies.Need ends.0 ends.1 confidence most least.0 least.1))) }
{
    let from = text_or_null(alloc, names.first(ends.0))?;
    let to = text_or_null(alloc, names.first(ends.1))?;
    json!(in alloc; {
        "confidence": confidence.get(),
        "dest": ends.1,
        "early": whole_or_null(least.0),
        "from": from,
        "kind": "need",
        "most": most,
        "origin": ends.0,
        "sure": whole_or_null(least.1),
        "to": to
    })
}

/// The object of a route of so many arcs, with its two bounds.
fn route_object(
    alloc: Global,
    names: &Names,
    dest: u32,
    budget: u32,
    bounds: (Grain, Grain),
    arcs: u64,
) -> Result<Value, AllocError>
    ensures { IfOk result (λ value. view value ≡ object (reply_members names.now
        (replies.Route dest budget bounds.0 bounds.1 arcs))) }
{
    let to = text_or_null(alloc, names.first(dest))?;
    json!(in alloc; {
        "arcs": arcs,
        "budget": budget,
        "dest": dest,
        "kind": "route",
        "lower": bounds.0.get(),
        "to": to,
        "upper": bounds.1.get()
    })
}

/// The object of a line that was refused, with the number of a cause that has one.
fn refused_object(
    alloc: Global,
    line: u32,
    cause: &str,
    count: Option<u64>,
) -> Result<Value, AllocError>
    ensures { IfOk result (λ value. view value ≡ object (refused_members line cause.now count)) }
{
    match count {
        Some(count) => json!(in alloc; {
            "cause": cause,
            "count": count,
            "kind": "refused",
            "line": line
        }),
        None => json!(in alloc; {"cause": cause, "kind": "refused", "line": line}),
    }
}

/// The number, or null.
fn whole_or_null(number: Option<u32>) -> Value
    ensures { view result ≡ whole_or_null number }
{
    match number {
        Some(number) => Value::from(number),
        None => Value::Null,
    }
}

/// The text, or null.
fn text_or_null(alloc: Global, text: Option<&str>) -> Result<Value, AllocError>
    ensures { IfOk result (λ value. view value
        ≡ text_or_null (option_map (λ text. text.now) text.entry)) }
{
    match text {
        Some(text) => Value::try_from_str(alloc, text),
        None => Ok(Value::Null),
    }
}
