// Positions and ids in records.
ghost use Rattle.std.specs.Prelude.{◌≡◌, MatchOption};
ghost use Rattle.mtn_records.specs.Fields.{Begins, BeginsWithNone, number_text, IsNumber};
ghost use Rattle.mtn_check_log.specs.Below.{has_id, is_position};

/// The position in front of bytes, and what is behind it.
pub fn split_position(bytes: &[u8]) -> Option<(u64, &[u8])>
    ensures { MatchOption result (BeginsWithNone number_text IsNumber bytes.now) (λ r. Begins number_text IsNumber bytes.now r.0 r.1.now) }
{
    let (number, rest) = bytes.split_first_chunk::<8>()?;
    Some((u64::from_be_bytes(*number), rest))
}

/// Whether a key is a position below a number.
pub fn is_below(count: u64, key: &[u8]) -> bool
    ensures { result ≡ is_position count key.now }
{
    match split_position(key) {
        Some((at, rest)) => rest.is_empty() && at < count,
        None => false,
    }
}

/// Whether a record of the log has an id.
pub fn is_of(id: &[u8], log: &[u8]) -> bool
    ensures { result ≡ has_id id.now log.now }
{
    let front = if log.len() > 20 { &log[..20] } else { log };
    front == id
}
