// Texts of key tables.
ghost use Rattle.std.specs.Prelude.{◌≡◌, [], ◌∷◌, map, IfOk, IfErr, OnOk};
ghost use Rattle.mtn_basic_io.specs.Spelling.{AreStanzas};
ghost use Rattle.mtn_certs.specs.KeyTables.{IsKeysText, IsKeysFault, IsKeyTable, header, stanza_of};
ghost use Rattle.mtn_certs.specs.ReadingTables.{IsPart, IsList, IsListFault, IsNextKeyName, IsRefused, IsFirstRefused};

use crate::cert::KeyName;
use crate::key_error::KeyTextError;
use crate::key_name::Name;
use crate::key_stanzas::{is_header, key_of};
use mtn_base::{Id, List};
use mtn_basic_io::{ReadError, Stanza, read as read_stanzas};
use std::alloc::Global;
use std::collections::BTreeSet;

/// The key names that were read, their ids and their names.
#[derive(Drop)]
struct Part {
    items: List<KeyName>,
    ids: BTreeSet<Id>,
    names: BTreeSet<Name>,
}

impl Part {
    fn new(alloc: Global) -> Part
        ensures { IsPart [] result.items result.ids result.names }
    {
        Part {
            items: List::new(alloc),
            ids: BTreeSet::new(alloc),
            names: BTreeSet::new(alloc),
        }
    }

    fn into_items(self) -> List<KeyName>
        ensures { result ≡ self.items }
    {
        let Part {
            items,
            ids: _,
            names: _,
        } = self;
        items
    }

    /// Reads the stanza of a number behind the others.
    fn add(&mut self, alloc: Global, stanza: &Stanza, number: u64) -> Result<(), KeyTextError>
        requires { IsPart self.old.items self.old.items self.old.ids self.old.names }
        ensures ok { OnOk result (IsNextKeyName self.old.items stanza.now self.new.items) }
        ensures part { OnOk result (IsPart self.new.items self.new.items self.new.ids self.new.names) }
        ensures err { IfErr result (IsRefused self.old.items stanza.now number) }
    {
        if is_header(stanza) {
            return Err(KeyTextError::BadOrder { number });
        }
        let Some(key) = key_of(alloc, stanza)? else {
            return Err(KeyTextError::BadStanza { number });
        };
        let name = Name::new(alloc, key.name.as_slice())?;
        let Ok(fresh_id) = self.ids.insert(key.id) else {
            return Err(KeyTextError::NoMemory);
        };
        if !fresh_id {
            return Err(KeyTextError::Repeated { number });
        }
        let Ok(fresh_name) = self.names.insert(name) else {
            return Err(KeyTextError::NoMemory);
        };
        if !fresh_name {
            return Err(KeyTextError::Repeated { number });
        }
        self.items.push(key)?;
        Ok(())
    }
}

/// Why the first stanza is no header.
fn first_fault(alloc: Global, stanza: &Stanza) -> KeyTextError
    requires { ¬ (stanza.now ≡ header) }
    ensures { IsFirstRefused stanza.now result }
{
    match key_of(alloc, stanza) {
        Err(_) => KeyTextError::NoMemory,
        Ok(None) => KeyTextError::BadStanza { number: 1 },
        Ok(Some(_)) => KeyTextError::BadOrder { number: 1 },
    }
}

/// The key names behind the header.
fn items_of(alloc: Global, stanzas: &[Stanza]) -> Result<List<KeyName>, KeyTextError>
    ensures ok { IfOk result (λ keys. IsList stanzas.now keys) }
    ensures err { IfErr result (IsListFault stanzas.now) }
{
    let Some(first) = stanzas.first() else {
        return Err(KeyTextError::BadOrder { number: 1 });
    };
    if !is_header(first) {
        return Err(first_fault(alloc, first));
    }
    let mut part = Part::new(alloc);
    for at in 1..stanzas.len() {
        if let Err(fault) = part.add(alloc, &stanzas[at], at as u64 + 1) {
            return Err(fault);
        }
    }
    Ok(part.into_items())
}

/// The key names that a text spells, in its order.
pub fn read_keys(alloc: Global, text: &[u8]) -> Result<Vec<KeyName>, KeyTextError>
    ensures ok { IfOk result (λ keys. IsKeysText text.now keys.items) }
    // Its ids are twenty bytes, so no other value has this text.
    ensures stanzas { IfOk result (λ keys. AreStanzas (header ∷ map stanza_of keys.items)) }
    ensures table { IfOk result (λ keys. IsKeyTable keys.items) }
    ensures err { IfErr result (λ e. IsKeysFault text.now e) }
{
    let stanzas = match read_stanzas(alloc, text) {
        Ok(stanzas) => stanzas,
        Err(ReadError::NotText { offset }) => return Err(KeyTextError::NotText { offset }),
        Err(ReadError::NoMemory) => return Err(KeyTextError::NoMemory),
    };
    let items = items_of(alloc, stanzas.as_slice())?;
    Ok(items.into_vec())
}
