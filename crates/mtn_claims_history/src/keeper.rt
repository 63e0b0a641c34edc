//! The keepers over a database.
ghost use Rattle.std.specs.Prelude.{◌≡◌, true, Err, IfOk, IsErrOf, None, OnErr, OnOk, option_map};
ghost use Rattle.mtn_keeper.specs.Missing.{told};
ghost use Rattle.mtn_ports.specs.Causes.{Rose};
ghost use Rattle.mtn_ports.specs.Kept.{Adds, Gets, Same};

use mtn_keeper::{LazyKeeper, Opener, SqliteKeeper};
use mtn_ports::{Batch, KeepError, Keeper};
use sqlite::{Alter, Connection};

/// As `SqliteKeeper::new`.
pub fn new_sqlite_keeper<S: Alter + Drop>(
    connection: Connection<S>,
) -> Result<SqliteKeeper<S>, KeepError>
    ensures open { connection.in_transaction ≡ true → result ≡ Err KeepError.Failed }
    ensures faults { IfOk result (λ k. k.faults ≡ 0) }
    ensures reads { IfOk result (λ k. k.reads ≡ 0) }
{
    SqliteKeeper::new(connection)
}

/// As `SqliteKeeper::into_connection`.
pub fn into_connection<S: Alter + Drop>(keeper: SqliteKeeper<S>) -> Connection<S>
    ensures { result ≡ keeper.connection }
{
    keeper.into_connection()
}

/// As `LazyKeeper::open`.
pub fn open_lazy<O: Opener + Drop>(opener: O) -> Result<LazyKeeper<O>, KeepError>
    ensures told { IfOk result (λ k. told k.opened ≡ None) }
    ensures faults { IfOk result (λ k. k.faults ≡ 0) }
    ensures reads { IfOk result (λ k. k.reads ≡ 0) }
{
    LazyKeeper::open(opener)
}

/// As `LazyKeeper::missing`.
pub fn missing<O: Opener + Drop>(opener: O) -> LazyKeeper<O>
    ensures { result ≡ record { opener = opener; opened = None; faults = 0; reads = 0 } }
{
    LazyKeeper::missing(opener)
}

/// As `LazyKeeper::into_connection`.
pub fn connection_of_lazy<O: Opener + Drop>(keeper: LazyKeeper<O>) -> Option<Connection<O::Store>>
    ensures { result ≡ option_map (λ k. k.connection) keeper.opened }
{
    keeper.into_connection()
}

/// As `Keeper::get` of a `LazyKeeper`, which has no record until its database is made.
pub fn get_lazily<O: Opener + Drop>(
    keeper: &mut LazyKeeper<O>,
    table: u8,
    key: &[u8],
    out: &mut Vec<u8>,
) -> Result<bool, KeepError>
    ensures found { Gets (told keeper.new.opened) table key.now result out.new.items }
    ensures failed { IsErrOf result KeepError.Failed → Rose keeper.old.faults keeper.new.faults }
{
    Keeper::get(keeper, table, key, out)
}

/// As `Keeper::apply` of a `LazyKeeper`, which makes its database at the first batch.
pub fn apply_lazily<O: Opener + Drop>(
    keeper: &mut LazyKeeper<O>,
    batch: Batch,
) -> Result<(), KeepError>
    ensures ok { OnOk result (Adds (told keeper.old.opened) (told keeper.new.opened) batch) }
    ensures err { OnErr result (Same (told keeper.old.opened) (told keeper.new.opened)) }
    ensures failed { IsErrOf result KeepError.Failed → Rose keeper.old.faults keeper.new.faults }
{
    Keeper::apply(keeper, batch)
}
