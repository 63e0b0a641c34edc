// Positions in the log, and what stands at one.
use mtn_base::Id;
use std::marker::Model;

/// A place in the log, from 0. Contracts see it as a number.
#[derive(Clone, Copy, PartialEq, Eq, PartialOrd, Ord)]
pub struct Pos(pub u64);

impl Model for Pos {
    ghost use Rattle.std.specs.Prelude.{ℕ};

    ghost Value = { ℕ };

    ghost view = { λ p. p.0 };

    ghost inverse = { λ n. record { 0 = n } };
}

/// The parents of a revision: none, one or two, in the order of its edges.
#[derive(Clone, Copy)]
pub enum ParentList {
    Zero,
    One(Pos),
    Two(Pos, Pos),
}

/// What the log has at a position: a revision's id, and where its parents stand.
#[derive(Clone, Copy)]
pub struct LogEntry {
    pub id: Id,
    pub parents: ParentList,
}
