// The ids of marks.
ghost use Rattle.std.specs.Prelude.{◌≡◌, ◌<◌, ℕ, [], length, map, find, option_and_then, option_copied, slice_get, unwrap_or, IsTrue, IfSome, OnOk};
ghost use Rattle.mtn_base.specs.Names.{bytes_cmp, same_bytes};
ghost use Rattle.mtn_marking.specs.Marking.{attr_marks_of};
ghost use Rattle.mtn_marking.specs.declared.node.AttrMarks.{AttrMarks};
ghost use Rattle.mtn_base.specs.Lists.{rises};
ghost use Rattle.mtn_roster_text.specs.Naming.{ids_at};

use crate::IdTable;
use mtn_ancestry::{Pos, PosSet};
use mtn_base::{Id, NoMemory, put_in_order};
use mtn_marking::AttrMarks;

/// Puts the ids of positions, ascending and each once, in place of what was there.
pub fn put_ids(table: &IdTable, marks: &[Pos], ids: &mut Vec<Id>) -> Result<(), NoMemory>
    ensures { OnOk result (ids.new.items ≡ ids_at table.now marks.now) }
{
    ids.clear();
    for at in marks {
        if let Some(id) = table.id(*at) {
            ids.push(id)?;
        }
    }
    put_in_order(ids);
    Ok(())
}

/// The positions of a set; none where there is no set.
pub fn positions_in<'a>(marks: Option<&'a PosSet>) -> &'a [Pos]
    ensures { result.now ≡ unwrap_or (option_copied marks.entry) [] }
{
    match marks {
        Some(set) => set.as_slice(),
        None => &[],
    }
}

/// The place of a key among attributes whose keys ascend.
fn place_of_key(attrs: &[AttrMarks], key: &[u8]) -> Option<usize>
    requires rising { IsTrue (rises bytes_cmp (map (λ (a : AttrMarks). a.key) attrs.now)) }
    ensures within { IfSome result (λ place. place < length attrs.now) }
    ensures attr { option_and_then (slice_get attrs.now) result ≡ find (λ (a : AttrMarks). same_bytes a.key key.now) attrs.now }
{
    match attrs.binary_search_by(|attr| attr.key.as_slice().cmp(key)) {
        Ok(place) => Some(place),
        Err(_) => None,
    }
}

/// The marks of the attribute of a key.
pub fn marks_of_key<'a>(attrs: &'a [AttrMarks], key: &[u8]) -> Option<&'a PosSet>
    requires rising { IsTrue (rises bytes_cmp (map (λ (a : AttrMarks). a.key) attrs.now)) }
    ensures { option_copied result ≡ attr_marks_of attrs.now key.now }
{
    let place = place_of_key(attrs, key)?;
    let attr = attrs.get(place)?;
    Some(&attr.marks)
}
