// Keepers.
ghost use Rattle.std.specs.Prelude.{◌≡◌, ◌≤◌, ◌↔◌, IfOk, IfSome, IsErrOf, IsOk, IsTrue, OnErr, OnOk};
ghost use Rattle.mtn_model.specs.Table.{nothing};
ghost use Rattle.mtn_ports.specs.Causes.{RisesByOne, Rose};
ghost use Rattle.mtn_ports.specs.Kept.{Adds, AreKeyed, Gets, MayLeave, Same, Stays, StaysAbove, TellsNextKey, TellsBody, with_all};
ghost use Rattle.mtn_ports.specs.Memory.{called, is_listed, keeper_calls, kept, none_yet};

use mtn_base::NoMemory;
use mtn_ports::{Batch, KeepError, Keeper, MemKeeper};

/// As `Keeper::get`.
pub fn get<K: Keeper>(
    keeper: &mut K,
    table: u8,
    key: &[u8],
    out: &mut Vec<u8>,
) -> Result<bool, KeepError>
    ensures found { Gets (K.contents keeper.new) table key.now result out.new.items }
    ensures stays { Stays K.contents K.leaves K.faults keeper.old keeper.new }
    ensures failed { IsErrOf result KeepError.Failed → Rose (K.faults keeper.old) (K.faults keeper.new) }
    ensures reads { RisesByOne (K.reads keeper.old) (K.reads keeper.new) }
{
    keeper.get(table, key, out)
}

/// As `Keeper::next`.
pub fn next<K: Keeper>(
    keeper: &mut K,
    table: u8,
    after: &[u8],
    key: &mut Vec<u8>,
) -> Result<bool, KeepError>
    ensures found { TellsNextKey (K.contents keeper.new) table after.now result key.new.items }
    ensures above { StaysAbove after.now result key.new.items }
    ensures keyed { OnOk result (IfSome (K.contents keeper.new) AreKeyed) }
    ensures stays { Stays K.contents K.leaves K.faults keeper.old keeper.new }
    ensures failed { IsErrOf result KeepError.Failed → Rose (K.faults keeper.old) (K.faults keeper.new) }
    ensures reads { RisesByOne (K.reads keeper.old) (K.reads keeper.new) }
{
    keeper.next(table, after, key)
}

/// As `Keeper::next_record`.
pub fn next_record<K: Keeper>(
    keeper: &mut K,
    table: u8,
    after: &[u8],
    key: &mut Vec<u8>,
    body: &mut Vec<u8>,
) -> Result<bool, KeepError>
    ensures found { TellsNextKey (K.contents keeper.new) table after.now result key.new.items }
    ensures told { TellsBody (K.contents keeper.new) table result key.new.items body.new.items }
    ensures above { StaysAbove after.now result key.new.items }
    ensures keyed { OnOk result (IfSome (K.contents keeper.new) AreKeyed) }
    ensures stays { Stays K.contents K.leaves K.faults keeper.old keeper.new }
    ensures failed { IsErrOf result KeepError.Failed → Rose (K.faults keeper.old) (K.faults keeper.new) }
    ensures reads { RisesByOne (K.reads keeper.old) (K.reads keeper.new) }
{
    keeper.next_record(table, after, key, body)
}

/// As `Keeper::apply`.
pub fn apply<K: Keeper>(keeper: &mut K, batch: Batch) -> Result<(), KeepError>
    ensures ok { OnOk result (Adds (K.contents keeper.old) (K.contents keeper.new) batch) }
    ensures err { OnErr result (Same (K.contents keeper.old) (K.contents keeper.new)) }
    ensures crash { MayLeave (K.contents keeper.old) (K.contents keeper.new) (K.leaves keeper.old) (K.leaves keeper.new) batch }
    ensures later { K.faults keeper.old ≤ K.faults keeper.new }
    ensures failed { IsErrOf result KeepError.Failed → Rose (K.faults keeper.old) (K.faults keeper.new) }
    ensures reads { K.reads keeper.new ≡ K.reads keeper.old }
{
    keeper.apply(batch)
}

/// As `MemKeeper::new`.
pub fn new_keeper(contents: Batch, failing: Vec<u64>) -> Result<MemKeeper, NoMemory>
    ensures made { IsOk result }
    ensures kept { IfOk result (λ k. kept k ≡ with_all nothing contents) }
    ensures calls { IfOk result (λ k. keeper_calls k ≡ none_yet failing.items) }
    ensures reads { IfOk result (λ k. k.reads ≡ 0) }
{
    MemKeeper::new(contents, failing)
}

/// As `MemKeeper::apply`: which calls fail.
pub fn apply_in_memory(keeper: &mut MemKeeper, batch: Batch) -> Result<(), KeepError>
    ensures fails { IsErrOf result KeepError.Failed ↔ IsTrue (is_listed (keeper_calls keeper.old)) }
    ensures calls { keeper_calls keeper.new ≡ called (is_listed (keeper_calls keeper.old)) (keeper_calls keeper.old) }
{
    Keeper::apply(keeper, batch)
}
