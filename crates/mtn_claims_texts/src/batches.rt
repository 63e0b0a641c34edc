// Batches, and ids of texts.
ghost use Rattle.std.specs.Prelude.{◌≡◌, ◌<◌, ◌≤◌, ◌∷◌, [], ◌++◌, IfOk, OnOk, OnErr, length, map, option_copied, option_map, slice_get, take};
ghost use Rattle.mtn_base.specs.Hex.{id_of};
ghost use Rattle.mtn_model.specs.Table.{Contents, body_at, nothing};
ghost use Rattle.mtn_ports.specs.Ident.{toy};
ghost use Rattle.mtn_ports.specs.Kept.{AreKeyed, IsLeast, over, with_all};

use mtn_base::{Bytes, Id, NoMemory, Text};
use mtn_ports::{Batch, Ident, Put, Toy};
use std::alloc::Global;
use std::thread::Threads;

/// As `Batch::put`.
pub fn put(batch: &mut Batch, table: u8, key: &[u8], body: &[u8]) -> Result<(), NoMemory>
    requires { 0 < length key.now }
    ensures ok { OnOk result (batch.new ≡ batch.old ++ record { table = table; key = key.now; body = body.now } ∷ []) }
    ensures err { OnErr result (batch.new ≡ batch.old) }
{
    batch.put(table, key, body)
}

/// As `Batch::put_owned`.
pub fn put_owned(batch: &mut Batch, table: u8, key: &[u8], body: Bytes) -> Result<(), NoMemory>
    requires { 0 < length key.now }
    ensures ok { OnOk result (batch.new ≡ batch.old ++ record { table = table; key = key.now; body = body } ∷ []) }
    ensures err { OnErr result (batch.new ≡ batch.old) }
{
    batch.put_owned(table, key, body)
}

/// As `Batch::at`.
pub fn at(batch: &Batch, place: usize) -> Option<&Put>
    ensures { option_copied result ≡ slice_get batch.now place }
{
    batch.at(place)
}

/// As `Batch::cut`.
pub fn cut(batch: &mut Batch, len: usize)
    requires { len ≤ length batch.old }
    ensures { batch.new ≡ take len batch.old }
{
    batch.cut(len)
}

/// As `Batch::find`.
pub fn find<'a>(batch: &'a Batch, table: u8, key: &[u8]) -> Option<&'a [u8]>
    ensures { (c : Contents) → body_at (with_all c batch.now) table key.now ≡ over (option_map (λ body. body.now) result) (body_at c table key.now) }
{
    batch.find(table, key)
}

/// As `Batch::least_above`.
pub fn least_above<'a>(
    batch: &'a Batch,
    table: u8,
    after: &[u8],
) -> Result<Option<&'a [u8]>, NoMemory>
    ensures found { IfOk result (λ found. IsLeast (with_all nothing batch.now) table after.now (option_map (λ key. key.now) found)) }
    ensures keyed { AreKeyed (with_all nothing batch.now) }
{
    batch.least_above(table, after)
}

/// As `Batch::append`.
pub fn append(batch: &mut Batch, other: Batch) -> Result<(), NoMemory>
    ensures ok { OnOk result (batch.new ≡ batch.old ++ other) }
    ensures err { OnErr result (batch.new ≡ batch.old) }
{
    batch.append(other)
}

/// As `Ident::id`.
pub fn id<I: Ident>(ident: &I, text: &[u8]) -> Id
    ensures { result.0 ≡ I.meaning ident.now text.now }
{
    ident.id(text)
}

/// As `Ident::ids`.
pub fn ids<R: Threads + Sync, I: Ident>(
    rt: &R,
    ident: &I,
    alloc: Global,
    texts: &[Text],
) -> Result<Vec<Id>, NoMemory>
    ensures { IfOk result (λ ids. ids.items ≡ map (λ text. id_of (I.meaning ident.now text)) texts.now) }
{
    ident.ids(rt, alloc, texts)
}

/// As `Toy.id`.
pub fn toy_id(text: &[u8]) -> Id
    ensures { result.0 ≡ toy text.now }
{
    Toy.id(text)
}
