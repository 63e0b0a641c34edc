// Texts of revisions (bench/revision_text.sh).
use crate::watch::Watch;
use mtn_changes::{lawful_in_any_order, read_revision, write_revision};

/// Reads the text of a revision and writes it again, in the writer's order.
/// Steps: reading its stanzas alone, reading the revision, writing it.
pub fn revision(rt: &HostRuntime, watch: &mut Watch, text: &[u8]) -> Option<Vec<u8>> {
    let alloc = rt.alloc();
    let mut again = Vec::new(alloc);
    watch.begin(rt);
    let _stanzas = mtn_basic_io::read(alloc, text).ok()?;
    watch.lap(rt);
    let revision = read_revision(alloc, text).ok()?;
    watch.lap(rt);
    lawful_in_any_order();
    write_revision(alloc, &revision, &mut again).ok()?;
    watch.lap(rt);
    Some(again)
}
