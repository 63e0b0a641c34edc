// That the pieces of one call run at the same time. No clause says so: a call that does one piece after the other
// meets them all.
use crate::gate::MeetingGate;
use mtn_base::Text;
use mtn_case_records::meeting::Meeting;
use mtn_pieces::Sha1Many;
use mtn_ports::{Ident, Sha1One};
use std::alloc::Global;
use std::test::Fail;
use std::thread::Threads;

fn two_texts(alloc: Global) -> Option<Vec<Text>> {
    let mut texts = Vec::new(alloc);
    texts.push(Text::from_slice(alloc, b"abc").ok()?).ok()?;
    texts.push(Text::from_slice(alloc, b"").ok()?).ok()?;
    Some(texts)
}

// Whether the answer in two pieces, which meet in the gate, is that of one.
fn agrees<R: Threads + Sync>(rt: &R, alloc: Global, meeting: &Meeting) -> Option<bool> {
    let texts = two_texts(alloc)?;
    let many = Sha1Many::new(MeetingGate { meeting }, 2);
    let ids = many.ids_of(rt, alloc, &texts).ok()?;
    let plain = Sha1One.ids(rt, alloc, &texts).ok()?;
    Some(ids == plain)
}

#[test]
fn pieces_meet(rt: HostRuntime) -> Result<(), Fail> {
    let meeting = Meeting::new();
    assert_eq!(rt; agrees(&rt, rt.alloc(), &meeting), Some(true));
    assert_eq!(rt; meeting.met(), 0b11);
    Ok(())
}
