// The summary of what was generated.
ghost use Rattle.std.specs.Prelude.{◌≡◌, IfOk};
ghost use Rattle.mtn_generated.specs.Numbered.{files_to, merges_to, summary_text};

use mtn_base::{Bytes, Id, NoMemory};
use std::alloc::Global;

// How many of the first revisions are merges.
fn merges(count: u64) -> u64
    ensures { result ≡ merges_to count }
{
    count / 4
}

// How many files are kept for them.
fn files(count: u64) -> u64
    ensures { result ≡ files_to count }
{
    if count == 0 {
        return 0;
    }
    let patched = if count % 4 >= 2 { 1 } else { 0 };
    10 + count / 4 + patched
}

/// The counts, and the last id.
pub fn summary(alloc: Global, count: u64, last: Id) -> Result<Bytes, NoMemory>
    ensures { IfOk result (λ text. text ≡ summary_text count last) }
{
    let mut digits = [0u8; 40];
    last.write_hex(&mut digits);
    let mut text = Vec::new(alloc);
    text.extend_from_slice(b"revisions ")?;
    text.extend_from_slice(count.to_string(alloc)?.as_bytes())?;
    text.extend_from_slice(b"\nmerges ")?;
    text.extend_from_slice(merges(count).to_string(alloc)?.as_bytes())?;
    text.extend_from_slice(b"\nfiles ")?;
    text.extend_from_slice(files(count).to_string(alloc)?.as_bytes())?;
    text.extend_from_slice(b"\nlast ")?;
    text.extend_from_slice(&digits)?;
    text.push(b'\n')?;
    Ok(Bytes::from_vec(text))
}
