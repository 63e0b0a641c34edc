// Rosters and manifests (bench/roster.sh).
use crate::tree::{BIRTH, built, entries_of};
use crate::watch::Watch;
use mtn_base::NodeName;
use mtn_roster::Roster;

/// The names of a roster's walk. A step.
fn walked(rt: &HostRuntime, watch: &mut Watch, roster: &Roster) -> Option<Vec<NodeName>> {
    watch.begin(rt);
    let names = roster.walk(rt.alloc()).ok()?;
    watch.lap(rt);
    Some(names)
}

/// The manifest of a roster. Ends a step.
fn manifest_of(rt: &HostRuntime, watch: &mut Watch, roster: &Roster) -> Option<Vec<u8>> {
    let mut manifest = Vec::new(rt.alloc());
    mtn_manifest::write(roster, &mut manifest).ok()?;
    watch.lap(rt);
    Some(manifest)
}

/// Builds the roster of a tree, walks it, and writes its manifest.
/// Steps: building, walking, writing.
pub fn roster(rt: &HostRuntime, watch: &mut Watch, text: &[u8]) -> Option<Vec<u8>> {
    let roster = built(rt, watch, entries_of(rt.alloc(), text, BIRTH)?)?;
    let _names = walked(rt, watch, &roster)?;
    manifest_of(rt, watch, &roster)
}
