// The texts that the database is asked by. The connection keeps the plan of each, by its text.

// The one table. A database that has any other object of its own is not a store.
pub(crate) const MAKE: &str =
    "CREATE TABLE kept (kind INTEGER NOT NULL, name BLOB NOT NULL, body BLOB NOT NULL, PRIMARY KEY (kind, name)) STRICT";

// How many objects were made by this text, and how many by another.
pub(crate) const OURS: &str = "SELECT count(*) FROM sqlite_schema WHERE sql = ?1";

pub(crate) const OTHERS: &str = "SELECT count(*) FROM sqlite_schema WHERE sql <> ?1";

// Any record.
pub(crate) const ANY: &str = "SELECT kind FROM kept LIMIT 1";

// The body under a name.
pub(crate) const GET: &str = "SELECT body FROM kept WHERE kind = ?1 AND name = ?2";

// The least name above another.
pub(crate) const NEXT: &str =
    "SELECT name FROM kept WHERE kind = ?1 AND name > ?2 ORDER BY name LIMIT 1";

// The same with its body.
pub(crate) const NEXT_RECORD: &str =
    "SELECT name, body FROM kept WHERE kind = ?1 AND name > ?2 ORDER BY name LIMIT 1";

// A body under a name, over an earlier one.
pub(crate) const PUT: &str =
    "INSERT INTO kept (kind, name, body) VALUES (?1, ?2, ?3) ON CONFLICT (kind, name) DO UPDATE SET body = excluded.body";
