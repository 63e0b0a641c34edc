// A database in a file.
use crate::lazy::Opener;
use sqlite::{Connection, Error, File, FileStore};
use std::rt::HostRuntime;

/// The file of this name, opened through the runtime. Closing folds the log of changes into it; where that fails they stay in
/// the log, and the next opening finds them.
#[derive(Drop)]
pub struct DatabaseFile<'a> {
    pub rt: &'a HostRuntime,
    pub path: &'a str,
}

impl Opener for DatabaseFile<'_> {
    type Store = FileStore<File>;

    fn open(&self) -> Result<Connection<FileStore<File>>, Error> {
        Connection::open(self.rt, self.path)
    }

    fn close(mut store: FileStore<File>) {
        fold(&mut store);
        drop(store.close());
    }
}

// Folds the log of changes into the file.
fn fold(store: &mut FileStore<File>) {
    let _ = store.checkpoint();
}
