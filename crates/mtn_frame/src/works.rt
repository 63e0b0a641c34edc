//! What does the commands.
ghost use Rattle.std.specs.Prelude.{◌≡◌, ℕ, List as Seq, Bool, IfOk, IfSome};
ghost use Rattle.mtn_model.specs.Table.{Contents};
ghost use Rattle.mtn_frame.specs.Outcome.{JobOutcome};
ghost use Rattle.mtn_base.specs.declared.refusal.Refusal.{Refusal};
ghost use Rattle.mtn_frame.specs.Works.{Works};

use mtn_base::{Bytes, NoMemory, Refusal};
use mtn_ports::{Batch, Keeper};
use std::alloc::Global;

/// The text of a command that was done, or that found conflicts.
#[derive(Drop)]
pub struct Reply {
    pub conflicts: bool,
    pub text: Bytes,
}

/// A reply, and the records that are to be put before it is given.
#[derive(Drop)]
pub struct Worked {
    pub reply: Reply,
    pub batch: Batch,
}

/// Why there is no reply.
#[derive(Drop)]
pub enum WorkError {
    /// The words are outside the grammar.
    Usage,
    /// A rule refuses it.
    Refused { refusal: Refusal },
    /// A record shows that the contents stand for no state: the line of that damage.
    Damaged { line: Bytes },
    /// The keeper failed.
    Failed,
    /// Memory ran out.
    NoMemory,
}

impl From<NoMemory> for WorkError {
    ghost use Rattle.mtn_frame.specs.declared.works.WorkError.TheVariants.{NoMemory};

    ghost from_gives = { λ _ e. e ≡ NoMemory };

    fn from(_: NoMemory) -> Self {
        WorkError::NoMemory
    }
}

/// The commands of a store. None of them changes the keeper: what is to be put is handed back.
pub trait Commands {
    /// What was read before, for the requests of one session.
    type Memory: Drop;

    /// What contents stand for. The frame never looks into it.
    ghost State: { Type 0 };

    /// Contents stand for a state.
    ghost stands: { Self → Contents → Self.State → Type 0 };

    /// What words with a payload come to over a state, one line a command.
    ghost does: { Self → Seq (Seq ℕ) → Seq ℕ → Self.State → JobOutcome Self.State → Type 0 };

    /// A line shows a damage of contents.
    ghost damages: { Self → Contents → Seq ℕ → Type 0 };

    /// A line shows the first damage of contents.
    ghost firsts: { Self → Contents → Seq ℕ → Type 0 };

    /// Over contents a command that vouches for the store is refused so.
    ghost refuses: { Self → Contents → Refusal → Type 0 };

    /// A line shows a damage, of whatever contents.
    ghost lines: { Seq ℕ → Type 0 };

    /// How many records words with a payload ask for at most, over contents that stand for a state.
    ghost bounds: { Self → Seq (Seq ℕ) → Seq ℕ → Self.State → ℕ → Type 0 };

    /// What words with a payload may change of contents.
    ghost changes: { Self → Seq (Seq ℕ) → Seq ℕ → Contents → Contents → Type 0 };

    /// What is remembered is true of contents.
    ghost knows: { Self → Self.Memory → Contents → Type 0 };

    /// Words are in the grammar.
    ghost spelled: { Seq (Seq ℕ) → Bool };

    /// Words of a merge.
    ghost merging: { Seq (Seq ℕ) → Bool };

    /// Words of a command that vouches for the store: it says that the contents stand for a state, is refused as `refuses` says, or
    /// shows their first damage.
    ghost vouching: { Seq (Seq ℕ) → Bool };

    /// Raw words that ask for a payload.
    ghost takes: { Seq (Seq ℕ) → Bool };

    /// Whether the words are in the grammar.
    fn is_spelled(&self, alloc: Global, words: &[Bytes]) -> Result<bool, NoMemory>
        ensures value { IfOk result (λ b. b ≡ spelled words.now) };

    /// Whether the raw words ask for a payload.
    fn takes_payload(&self, words: &[Bytes]) -> bool
        ensures value { result ≡ takes words.now };

    /// Nothing is remembered yet. It takes no memory.
    fn begin(&self, alloc: Global) -> Self::Memory
        ensures knows { (c : Contents) → knows self.now result c };

    /// Does one command, to which the payload is handed over. What is remembered must be true of the keeper's records.
    fn work<K: Keeper>(
        &self,
        alloc: Global,
        words: &[Bytes],
        payload: Bytes,
        memory: &mut Self::Memory,
        keeper: &mut K,
    ) -> Result<Worked, WorkError>
        requires knows { IfSome (K.contents keeper.old) (knows self.now memory.old) }
        ensures works { Works (stands self.now) (damages self.now) (firsts self.now) (refuses self.now) lines (knows self.now) K.contents K.leaves K.faults K.reads keeper.old keeper.new memory.new
            (spelled words.now) (merging words.now) (vouching words.now) (does self.now words.now payload) (bounds self.now words.now payload) (changes self.now words.now payload) result };
}
