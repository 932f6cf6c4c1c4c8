// Names of places.
ghost use Rattle.std.specs.Prelude.{ℕ, ◌≡◌, ◌≤◌, ◌<◌, ◌++◌, [], ◌∷◌, length, Some, None};
ghost use Rattle.std.specs.Prelude.{option_map, get_or, string_bytes, IfOk, OnOk, OnErr};
ghost use Rattle.sota_units.specs.Limits.{TEXT_LIMIT};
ghost use Rattle.sota_units.specs.Memory.{Answers, AnswersBy};
ghost use Rattle.sota_report.specs.Words.{is_shortage};
ghost use Rattle.sota_report.specs.Kept.{places_in, with_first};
ghost use Rattle.sota_report.specs.Names.{places_of, with_place, node_of, first_name};

use crate::NamesFault;
use crate::line::read_place;
use crate::start::HashStart;
use indexmap::IndexMap;
use sota_text::Lines;
use sota_units::NoMemory;
use std::alloc::Global;
use std::marker::Model;

/// The names of places, each with its node, in the order of their file. Contracts see the list of
/// pairs of a name and a node.
#[derive(Drop)]
pub struct Names {
    nodes: IndexMap<String, u32, HashStart>,
    // by a node's number, where its first name stands among all; 0 is no node
    firsts: Vec<Option<usize>>,
}

impl Model for Names {
    ghost use Rattle.std.specs.Prelude.{List};
    ghost use Rattle.sota_report.specs.Names.{Place};
    ghost use Rattle.sota_report.specs.Kept.{places_in, AreNamesKept};

    ghost Value = { List Place };

    ghost view = { λ names. places_in names.nodes.entries };

    ghost invariant = { λ names. AreNamesKept (places_in names.nodes.entries) names.firsts.items };
}

impl Names {
    /// The names of a text, for a network with so many nodes, or the first fault of the text.
    ///
    /// Each line is `NODE NAME`, blank or a comment, whose first field begins with `#`. A node may
    /// have several names; a name stands once.
    pub fn read(alloc: Global, bytes: &[u8], nodes: u32) -> Result<Names, NamesFault>
        requires { length bytes.now ≤ TEXT_LIMIT }
        ensures { Answers is_shortage result (places_of nodes bytes.now) }
    {
        let mut names = Names::empty(alloc, bytes);
        for line in Lines::new(bytes) {
            let text = &bytes[line.span.from..line.span.to];
            if let Some((name, node)) = read_place(nodes, line.number, text)? {
                names.add(alloc, line.number, name, node)?;
            }
        }
        Ok(names)
    }

    /// No names, to which those of a text are added.
    fn empty(alloc: Global, bytes: &[u8]) -> Names
        ensures { result ≡ [] }
    {
        Names {
            nodes: IndexMap::with_hasher(alloc, HashStart::of_text(bytes)),
            firsts: Vec::new(alloc),
        }
    }

    /// Adds the name of a line of this number. After a fault nothing is added.
    fn add(&mut self, alloc: Global, number: u32, name: &str, node: u32) -> Result<(), NamesFault>
        ensures { AnswersBy is_shortage (λ _. self.new) result
            (with_place self.old number (Some (name.now, node))) }
    {
        if self.nodes.contains_key(name) {
            return Err(NamesFault::RepeatedName(number));
        }
        let text = owned(alloc, name)?;
        make_room(&mut self.firsts, node)?;
        let index = self.nodes.len();
        insert(&mut self.nodes, text, node)?;
        keep_first(&mut self.firsts, node as usize, index);
        Ok(())
    }

    /// The node of a name. None exactly where the name is not there.
    pub fn find(&self, name: &str) -> Option<u32>
        ensures { result ≡ node_of self.now name.now }
    {
        self.find_bytes(name.as_bytes())
    }

    /// The node of the name that these bytes are. None exactly where it is not there, as where they
    /// are not UTF-8.
    pub(crate) fn find_bytes(&self, name: &[u8]) -> Option<u32>
        ensures { result ≡ node_of self.now name.now }
    {
        let nodes = &self.nodes;
        match str::from_utf8(name) {
            Ok(name) => nodes.get(name).copied(),
            Err(_) => None,
        }
    }

    /// The first name of a node. None exactly where the node has no name.
    pub fn first(&self, node: u32) -> Option<&str>
        ensures { option_map (λ name. name.now) result ≡ first_name self.now node }
    {
        let index = (*self.firsts.get(node as usize)?)?;
        let (name, _) = self.nodes.get_index(index)?;
        Some(name.as_str())
    }
}

/// A name as a text of its own.
fn owned(alloc: Global, name: &str) -> Result<String, NoMemory>
    ensures { IfOk result (λ text. string_bytes text ≡ name.now) }
{
    Ok(String::from_str(alloc, name)?)
}

/// Puts a name that is not there behind the others. After NoMemory they are unchanged.
#[tactic(auto, using(crate::proofs::Entries::appended))]
fn insert(
    nodes: &mut IndexMap<String, u32, HashStart>,
    text: String,
    node: u32,
) -> Result<(), NoMemory>
    requires { node_of (places_in nodes.old.entries) (string_bytes text) ≡ None }
    ensures ok { OnOk result (places_in nodes.new.entries
        ≡ places_in nodes.old.entries ++ (string_bytes text, node) ∷ []) }
    ensures err { OnErr result (places_in nodes.new.entries ≡ places_in nodes.old.entries) }
{
    nodes.insert(text, node)?;
    Ok(())
}

/// Makes room for a node, of which nothing is known yet.
#[tactic(auto, using(crate::proofs::Firsts::room))]
fn make_room(firsts: &mut Vec<Option<usize>>, node: u32) -> Result<(), NoMemory>
    ensures same { (n : ℕ) → get_or firsts.new.items n None ≡ get_or firsts.old.items n None }
    ensures room { OnOk result (node < length firsts.new.items) }
{
    let node = node as usize;
    if firsts.len() <= node {
        firsts.resize(node + 1, None)?;
    }
    Ok(())
}

/// Keeps where a name of a node stands, where it is the first one.
fn keep_first(firsts: &mut Vec<Option<usize>>, node: usize, index: usize)
    requires { node < length firsts.old.items }
    ensures { firsts.new.items ≡ with_first firsts.old.items node index }
{
    if firsts[node].is_none() {
        firsts[node] = Some(index);
    }
}
