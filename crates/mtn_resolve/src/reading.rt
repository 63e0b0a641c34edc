// Texts of resolutions.
ghost use Rattle.std.specs.Prelude.{◌≡◌, [], ◌∷◌, map, IfOk, IfErr, OnOk};
ghost use Rattle.mtn_basic_io.specs.Spelling.{AreStanzas};
ghost use Rattle.mtn_resolve.specs.Texts.{IsResolutionsText, IsResolutionsFault, header, stanza_of};
ghost use Rattle.mtn_resolve.specs.Reading.{IsPart, IsList, IsListFault, IsNextResolution, IsRefused, IsFirstRefused};

use crate::error::ResolveTextError;
use crate::resolution::{Resolution, Resolutions};
use crate::stanzas::{is_header, resolution_of};
use crate::subject::{Subject, subject_of};
use mtn_base::List;
use mtn_basic_io::{ReadError, Stanza, read as read_stanzas};
use std::alloc::Global;
use std::collections::BTreeSet;

/// The resolutions that were read, and what they speak of.
#[derive(Drop)]
struct Part {
    items: List<Resolution>,
    subjects: BTreeSet<Subject>,
}

impl Part {
    fn new(alloc: Global) -> Part
        ensures { IsPart [] result.items result.subjects }
    {
        Part {
            items: List::new(alloc),
            subjects: BTreeSet::new(alloc),
        }
    }

    fn into_items(self) -> List<Resolution>
        ensures { result ≡ self.items }
    {
        let Part { items, subjects: _ } = self;
        items
    }

    /// Reads the stanza of a number behind the others.
    fn add(&mut self, alloc: Global, stanza: &Stanza, number: u64) -> Result<(), ResolveTextError>
        requires { IsPart self.old.items self.old.items self.old.subjects }
        ensures ok { OnOk result (IsNextResolution self.old.items stanza.now self.new.items) }
        ensures part { OnOk result (IsPart self.new.items self.new.items self.new.subjects) }
        ensures err { IfErr result (IsRefused self.old.items stanza.now number) }
    {
        if is_header(stanza) {
            return Err(ResolveTextError::BadOrder { number });
        }
        let Some(resolution) = resolution_of(alloc, stanza)? else {
            return Err(ResolveTextError::BadStanza { number });
        };
        let subject = subject_of(alloc, &resolution)?;
        let Ok(fresh) = self.subjects.insert(subject) else {
            return Err(ResolveTextError::NoMemory);
        };
        if !fresh {
            return Err(ResolveTextError::Repeated { number });
        }
        self.items.push(resolution)?;
        Ok(())
    }
}

/// Why the first stanza is no header.
fn first_fault(alloc: Global, stanza: &Stanza) -> ResolveTextError
    requires { ¬ (stanza.now ≡ header) }
    ensures { IsFirstRefused stanza.now result }
{
    match resolution_of(alloc, stanza) {
        Err(_) => ResolveTextError::NoMemory,
        Ok(None) => ResolveTextError::BadStanza { number: 1 },
        Ok(Some(_)) => ResolveTextError::BadOrder { number: 1 },
    }
}

/// The resolutions behind the header.
fn items_of(alloc: Global, stanzas: &[Stanza]) -> Result<List<Resolution>, ResolveTextError>
    ensures ok { IfOk result (λ rs. IsList stanzas.now rs) }
    ensures err { IfErr result (IsListFault stanzas.now) }
{
    let Some(first) = stanzas.first() else {
        return Err(ResolveTextError::BadOrder { number: 1 });
    };
    if !is_header(first) {
        return Err(first_fault(alloc, first));
    }
    let mut part = Part::new(alloc);
    for at in 1..stanzas.len() {
        if let Err(fault) = part.add(alloc, &stanzas[at], at as u64 + 1) {
            return Err(fault);
        }
    }
    Ok(part.into_items())
}

/// The resolutions that a text spells, in its order.
pub fn read(alloc: Global, text: &[u8]) -> Result<Resolutions, ResolveTextError>
    ensures ok { IfOk result (λ rs. IsResolutionsText text.now rs) }
    // Its ids are twenty bytes, so no other value has this text.
    ensures stanzas { IfOk result (λ rs. AreStanzas (header ∷ map stanza_of rs)) }
    ensures err { IfErr result (λ e. IsResolutionsFault text.now e) }
{
    let stanzas = match read_stanzas(alloc, text) {
        Ok(stanzas) => stanzas,
        Err(ReadError::NotText { offset }) => return Err(ResolveTextError::NotText { offset }),
        Err(ReadError::NoMemory) => return Err(ResolveTextError::NoMemory),
    };
    let items = items_of(alloc, stanzas.as_slice())?;
    Ok(Resolutions::new(items.into_vec()))
}
