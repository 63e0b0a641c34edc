// The commands.
ghost use Rattle.std.specs.Prelude.{◌≡◌};

use mtn_answers::Query;
use mtn_base::{Bytes, Id, List, Path};

/// What is said of a revision that is committed, each as the value of a certificate, with the id of the key that says it.
#[derive(Drop)]
pub struct Said {
    pub author: Bytes,
    pub branch: Bytes,
    pub changelog: Bytes,
    pub date: Bytes,
    pub key: Id,
}

/// A command with what its words say.
#[derive(Drop)]
pub enum Call {
    /// `put_file`: keeps the payload, and answers its id.
    PutFile,
    /// `put_revision`: accepts the payload as a revision's text, and answers its id.
    PutRevision,
    /// `get_file ID`: answers the bytes of a file.
    GetFile {
        id: Id,
    },
    /// `get_revision ID`: answers the text of a revision.
    GetRevision {
        id: Id,
    },
    /// `get_manifest_of ID`: answers the manifest of a revision's tree.
    GetManifestOf {
        id: Id,
    },
    /// `get_roster ID`: answers a revision's tree with its marks.
    GetRoster {
        id: Id,
    },
    /// `get_content_changed ID PATH`: answers the marks of a file's content.
    GetContentChanged {
        id: Id,
        path: Path,
    },
    /// `get_corresponding_path ID PATH ID`: answers where the node at a path stands in another revision.
    GetCorrespondingPath {
        id: Id,
        path: Path,
        other: Id,
    },
    /// A query of the graph: answers ids.
    Ask {
        query: Query,
    },
    /// `graph`: answers each revision with its parents.
    Graph,
    /// `merge [--resolve] ID ID`: accepts the merge of two revisions, with the payload as resolutions if the option says so, and
    /// answers its id, or the conflicts.
    Merge {
        a: Id,
        b: Id,
        resolves: bool,
    },
    /// `show_conflicts ID ID`: answers the conflicts of a merge.
    ShowConflicts {
        a: Id,
        b: Id,
    },
    /// `cert --key=KEYID [--sig=BASE64] ID NAME VALUE`: holds a certificate of a revision.
    Cert {
        revision: Id,
        name: Bytes,
        key: Id,
        value: Bytes,
        /// As it stands in the words: base64.
        signature: Option<Bytes>,
    },
    /// `certs ID`: answers the certificates of a revision.
    Certs {
        id: Id,
    },
    /// `key KEYID NAME`: gives a key its name.
    Key {
        id: Id,
        name: Bytes,
    },
    /// `heads BRANCH`: answers the heads of a branch.
    Heads {
        branch: Bytes,
    },
    /// `branches`: answers the branches that have a member.
    Branches,
    /// `commit --author=.. --branch=.. --changelog=.. --date=.. --key=KEYID`: accepts the payload as a revision's text with
    /// what is said of it, and answers its id.
    Commit {
        said: Said,
    },
    /// `merge_heads --author=.. --date=.. --key=KEYID [--resolve] BRANCH`: accepts the merge of the two least heads of a
    /// branch with what is said of it, and answers its id, or the conflicts.
    MergeHeads {
        branch: Bytes,
        author: Bytes,
        date: Bytes,
        key: Id,
        resolves: bool,
    },
    /// `packets ID HAVE..`: answers the packets of a revision and its ancestors, without those that others are or have as ancestors.
    Packets {
        id: Id,
        have: List<Id>,
    },
    /// `read`: accepts the payload's packets, all or none, and answers how many files, revisions and certificates are new.
    Read,
    /// `generate N`: accepts N generated revisions, all or none, in a store that has none, and answers how many they are.
    Generate {
        count: u64,
    },
    /// `check`: reads the whole store, and answers how many revisions it has.
    Check,
    /// `migrate`: turns a store of the older form into the present one by the payload, a key table, and answers how many keys
    /// and certificates there are.
    Migrate,
}

impl Call {
    ghost use Rattle.mtn_step.specs.Step.{takes_payload};

    /// Whether the source is read.
    pub fn takes_payload(&self) -> bool
        ensures { result ≡ takes_payload self.now }
    {
        match self {
            Call::PutFile | Call::PutRevision => true,
            Call::GetFile { .. } | Call::GetRevision { .. } => false,
            Call::GetManifestOf { .. } | Call::GetRoster { .. } => false,
            Call::GetContentChanged { .. } => false,
            Call::GetCorrespondingPath { .. } => false,
            Call::Ask { .. } | Call::Graph => false,
            Call::Merge { resolves, .. } => *resolves,
            Call::ShowConflicts { .. } => false,
            Call::Cert { .. } | Call::Certs { .. } | Call::Key { .. } => false,
            Call::Heads { .. } | Call::Branches => false,
            Call::Commit { .. } => true,
            Call::MergeHeads { resolves, .. } => *resolves,
            Call::Packets { .. } => false,
            Call::Read => true,
            Call::Generate { .. } | Call::Check => false,
            Call::Migrate => true,
        }
    }
}
