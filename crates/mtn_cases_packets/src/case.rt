// A case: a graph, certificates and key names.
use mtn_ancestry::{Graph, ParentList, Pos};
use mtn_base::{Bytes, Id};
use mtn_certs::{Cert, KeyName};
use std::alloc::Global;

/// What the lines of a case told.
#[derive(Drop)]
pub struct Case {
    pub graph: Graph,
    pub certs: Vec<Cert>,
    pub keys: Vec<KeyName>,
}

/// The id each of whose bytes is a letter.
fn id_of(word: &[u8]) -> Option<Id> {
    match word {
        [letter] => Some(Id([*letter; 20])),
        _ => None,
    }
}

fn place_of(graph: &Graph, word: &[u8]) -> Option<Pos> {
    graph.find(id_of(word)?)
}

fn parents_of(graph: &Graph, words: &[&[u8]]) -> Option<ParentList> {
    match words {
        [] => Some(ParentList::Zero),
        [parent] => Some(ParentList::One(place_of(graph, parent)?)),
        [first, second] => Some(ParentList::Two(place_of(graph, first)?, place_of(graph, second)?)),
        _ => None,
    }
}

// Appends a revision to a graph that has its parents and not its id.
fn push(graph: &mut Graph, id: Id, parents: ParentList) -> Option<()> {
    let len = graph.len();
    if graph.find(id).is_some() {
        return None;
    }
    match parents {
        ParentList::Two(p, q) if p.0 < len && q.0 < len => {
            graph.push(id, ParentList::Two(p, q)).ok()?;
        }
        ParentList::One(p) if p.0 < len => {
            graph.push(id, ParentList::One(p)).ok()?;
        }
        ParentList::Zero => {
            graph.push(id, ParentList::Zero).ok()?;
        }
        _ => return None,
    }
    Some(())
}

impl Case {
    /// A case that was told nothing.
    pub fn new(alloc: Global) -> Case {
        Case {
            graph: Graph::new(alloc),
            certs: Vec::new(alloc),
            keys: Vec::new(alloc),
        }
    }

    /// One more revision.
    pub fn add_revision(&mut self, id: &[u8], parents: &[&[u8]]) -> Option<()> {
        let parents = parents_of(&self.graph, parents)?;
        push(&mut self.graph, id_of(id)?, parents)
    }

    /// One more key name.
    pub fn add_key(&mut self, alloc: Global, id: &[u8], name: &[u8]) -> Option<()> {
        let key = KeyName {
            id: id_of(id)?,
            name: Bytes::from_slice(alloc, name).ok()?,
        };
        self.keys.push(key.copy(alloc).ok()?).ok()
    }

    /// One more certificate.
    pub fn add_cert(&mut self, alloc: Global, args: &[&[u8]]) -> Option<()> {
        let [revision, name, key, value, signature] = args else {
            return None;
        };
        let signature = if *signature == b"-".as_slice() {
            &[]
        } else {
            *signature
        };
        let cert = Cert::new(alloc, id_of(revision)?, name, id_of(key)?, value, signature).ok()?;
        self.certs.push(cert.copy(alloc).ok()?).ok()
    }
}
