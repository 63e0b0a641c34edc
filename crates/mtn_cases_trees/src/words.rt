// Words and positions, as lines spell them.
use mtn_ancestry::Pos;
use mtn_case_trees::number_of;
use std::alloc::Global;

/// The place of a word among words with a blank between two; their number where it is none of them.
pub fn place_of(word: &[u8], words: &str) -> usize {
    words
        .as_bytes()
        .split(|byte| *byte == b' ')
        .take_while(|it| *it != word)
        .count()
}

/// The position that a word spells.
pub fn position_of(word: &[u8]) -> Option<Pos> {
    Some(Pos(u64::from(number_of(word)?)))
}

/// The positions that words spell.
pub fn positions_of(alloc: Global, words: &[&[u8]]) -> Option<Vec<Pos>> {
    let mut all = Vec::new(alloc);
    for word in words {
        all.push(position_of(word)?).ok()?;
    }
    Some(all)
}
