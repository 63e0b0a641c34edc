// Texts of stanzas (bench/basic_io.sh).
use crate::watch::Watch;
use mtn_basic_io::{read, write};

/// Reads the stanzas of a text and writes them again.
/// Steps: reading, writing.
pub fn stanzas(rt: &HostRuntime, watch: &mut Watch, text: &[u8]) -> Option<Vec<u8>> {
    let mut again = Vec::new(rt.alloc());
    watch.begin(rt);
    let stanzas = read(rt.alloc(), text).ok()?;
    watch.lap(rt);
    write(&stanzas, &mut again).ok()?;
    watch.lap(rt);
    Some(again)
}
