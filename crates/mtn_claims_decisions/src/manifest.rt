//! The lines of a manifest.
ghost use Rattle.std.specs.List.{flat_map};
ghost use Rattle.std.specs.Prelude.{[], ◌++◌, ◌∷◌, ◌≡◌, ◌≤◌, IfOk, OnOk};
ghost use Rattle.mtn_base.specs.Front.{IsFront};
ghost use Rattle.mtn_basic_io.specs.Spelling.{line_text, longest, spelling};
ghost use Rattle.mtn_manifest.specs.Manifest.{IsMet, body_lines, head_stanza, kept_at, text_at};

use mtn_base::{Bytes, NoMemory};
use mtn_roster::{Body, Entry, Slot};
use std::alloc::Global;

/// As `mtn_manifest::put_text`.
pub fn put_text(
    kept: &[Bytes],
    slot: &Slot,
    above: usize,
    text: &mut Vec<u8>,
) -> Result<(), NoMemory>
    requires { IsMet kept.now slot.now above }
    ensures { OnOk result (text.new.items ≡ text_at kept.now slot.now above) }
{
    mtn_manifest::put_text(kept, slot, above, text)
}

/// As `mtn_manifest::kept_of`.
pub fn kept_of(alloc: Global, text: &[u8], entry: &Entry) -> Result<Bytes, NoMemory>
    ensures { IfOk result (λ kept. kept ≡ kept_at text.now entry.now) }
{
    mtn_manifest::kept_of(alloc, text, entry)
}

/// As `mtn_manifest::write_body`.
pub fn write_body(
    column: usize,
    path: &[u8],
    body: &Body,
    out: &mut Vec<u8>,
) -> Result<(), NoMemory>
    requires { longest (body_lines path.now body.now) ≤ column }
    ensures ok { OnOk result (out.new.items ≡ out.old.items ++ flat_map (line_text column) (body_lines path.now body.now)) }
    ensures kept { IsFront out.old.items out.new.items }
{
    mtn_manifest::write_body(column, path, body, out)
}

/// As `mtn_manifest::write_head`.
pub fn write_head(out: &mut Vec<u8>) -> Result<(), NoMemory>
    ensures ok { OnOk result (out.new.items ≡ out.old.items ++ spelling (head_stanza ∷ [])) }
    ensures kept { IsFront out.old.items out.new.items }
{
    mtn_manifest::write_head(out)
}
