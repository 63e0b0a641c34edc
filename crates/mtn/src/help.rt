// What `--help`, `--explain` and `--version` print.

/// The grammar of words, and what each status leaves.
pub const HELP: &str = "\
mtn STORE COMMAND [WORD..]

STORE is the file that holds the store, or `-` for an empty store in memory.
Where there is no such file, a command is done as over an empty store, and the
file is made once something is kept. The input of a command is standard input,
its output standard output. The word `--` ends the options of a command.

Commands:
  put_file             keeps the input as a file; prints its id
  put_revision         accepts the input as the text of a revision; prints its id
  get_file FILE        prints the bytes of the file with this id
  get_revision REV     prints the text of the revision with this id
  get_manifest_of REV  prints the manifest of its tree
  get_roster REV       prints its tree with births and marks
  get_content_changed REV PATH
                       prints the ids of the revisions that last changed the
                       content of the file at PATH
  get_corresponding_path REV PATH REV
                       prints where the node at PATH of the first revision
                       stands in the second, or nothing where it is not there
  merge REV REV        accepts the merge of two revisions; prints its id, or the
                       conflicts. With --resolve the input is resolutions
  show_conflicts REV REV
                       prints the conflicts of such a merge

What is said of revisions; a key is named by its id, 40 digits as REV:
  key KEYID NAME       gives a key its name, which it keeps
  cert --key=KEYID [--sig=BASE64] REV NAME VALUE
                       holds a certificate of a revision
  certs REV            prints the certificates of a revision
  branches             prints the branches that have a member
  heads BRANCH         prints the ids of the members of a branch from which no
                       other member descends
  commit --author=.. --branch=.. --changelog=.. --date=.. --key=KEYID
                       accepts the input as put_revision does, with four
                       certificates; prints its id
  merge_heads --author=.. --date=.. --key=KEYID BRANCH
                       accepts the merge of the two least heads of a branch as
                       merge does, with four certificates; prints its id, or the
                       conflicts. With --resolve the input is resolutions

From one store to another:
  packets REV [REV..]  prints a revision and its ancestors, without the others
                       and theirs, as packets: files, texts and certificates
  read                 keeps what the packets of the input hold, all or nothing;
                       prints how many files, revisions and certificates are new

Of the store itself:
  check                prints `ok` and the number of revisions where every record
                       is the one that is due; else the first damage
  migrate              turns a store of the older form into the present one: the
                       input is a key table, with the id of each key's name;
                       prints how many keys and certificates it has then

To try things on:
  generate N           makes a history of N revisions, 1 to 2000, with merges, in
                       a store without any; prints what it made

Queries of the graph; each prints ids, one a line, in ascending order unless it
says log order, which is that of acceptance:
  parents REV                     its parents
  children REV                    the revisions that have it as a parent
  ancestors REV..                 the proper ancestors of at least one
  descendents REV..               the proper descendents of at least one
  common_ancestors REV..          what is each of these or an ancestor of it
  erase_ancestors [REV..]         those that are proper ancestors of no other
  toposort [REV..]                these in log order
  ancestry_difference REV [REV..] the first and its ancestors, without the others
                                  and theirs, in log order
  leaves                          the revisions without children
  roots                           the revisions without parents
  graph                           a line for each revision: its id, its parents

Many commands at one opening of the store:
  stdio                done request by request; the input is requests, each `l`,
                       its words and `e`, a word its size in decimal, `:` and
                       its bytes, as l8:put_file3:abce. The last word of
                       put_file, put_revision, commit, read and migrate, of
                       merge and merge_heads with --resolve, is their input.
                       The answer to request N, counted from 0, is
                       N:m:SIZE:OUTPUT and N:l:1:STATUS

FILE is the id of a file, REV that of a revision: 40 lower-case hexadecimal
digits, the SHA-1 of its bytes, of its text. PATH is components joined by `/`,
the root the empty word.

  mtn --help             prints this
  mtn --help COMMAND     says what a command takes, prints and refuses
  mtn --explain STATUS   says what an exit status leaves, and what to do
  mtn --version          prints the version, and the format of the store

Exit status: 0 done, 1 refused, 2 usage, 3 conflicts, 4 the input failed, 5 the
output failed, 6 the store failed, 7 memory is wanting, 8 the store is damaged,
9 the input is too long. But for 0 and 5 the store is as it was; in a session
the requests that were answered were done, and after 5 the one whose answer was
cut short too.";

/// The program and its version, and what a store's record of its version says.
pub const VERSION: &str = "mtn 0.1.0 (Sonnavil), store format 2";

/// What each command takes, prints and refuses; a paragraph begins with its name.
pub const COMMANDS: &str = "\
put_file <FILE
  Keeps the bytes of standard input as a file. The same bytes are kept once.
  Prints its id: the SHA-1 of the bytes.
  Refused: TextTooLong (more than 67108864 bytes), Collision (other bytes are
  held under the id).

put_revision <TEXT
  Accepts standard input as the text of a revision: a root, a change of one
  parent, or a merge of two. Its parents and the contents that it brings have to
  be held. A text that is held already is accepted again.
  Prints its id: the SHA-1 of the text.
  Refused: the first of TextTooLong, NotText, BadStanza, BadOrder, Repeated,
  BadEdge, Collision, LogFull, UnknownParent, BadChange, Disagree, Revived,
  TooManyNodes, PathTooLong, UnknownFile, ManifestDiffers (which tells the id of
  the manifest that the changes make).

get_file FILE
  Prints the bytes of the file with this id.
  Refused: UnknownFile.

get_revision REV
  Prints the text of the revision with this id.
  Refused: UnknownRevision.

get_manifest_of REV
  Prints the manifest of the revision's tree: each node by its path, with the
  content of files and the live attributes.
  Refused: UnknownRevision.

get_roster REV
  Prints the revision's tree with the birth of each node, and with the revisions
  from which its place, its content and its attributes come.
  Refused: UnknownRevision.

get_content_changed REV PATH
  Prints the ids of the revisions from which the content of the file at PATH
  comes, as stanzas, ascending.
  Refused: UnknownRevision, NoSuchPath, NotAFile.

get_corresponding_path REV PATH OTHER
  Prints where the node at PATH of the revision REV stands in the revision OTHER,
  or nothing where it is not there.
  Refused: UnknownRevision, NoSuchPath.

merge REV REV
merge --resolve REV REV <RESOLUTIONS
  Accepts the merge of two revisions, in either order, of which neither is an
  ancestor of the other: what the history decides of each node, its name, its
  content and its attributes. With --resolve standard input says what is decided
  instead of conflicts (docs/FORMATS.md has its form).
  Prints the id of the merged revision; or, with status 3, the conflicts, and
  nothing is kept.
  Refused: the first of UnknownRevision, Related, then of the resolutions
  TextTooLong, NotText, BadStanza, BadOrder, Repeated, UnknownNode,
  NotADirectory, NotAConflict, UnknownFile, and where no conflict is left
  TooManyNodes, PathTooLong, TextTooLong, Collision, LogFull.

show_conflicts REV REV
  Prints the conflicts that a merge of two revisions has without resolutions,
  also where it has none, and keeps nothing.
  Refused: UnknownRevision, Related.

key KEYID NAME
  Gives a key a name: 1 to 255 bytes from ! to ~ without brackets. A key keeps
  its name; two keys may have the same one.
  Prints nothing.
  Refused: BadField key, KeyNamed (with the name that the key has).

cert --key=KEYID [--sig=BASE64] REV NAME VALUE
  Holds a certificate of a revision: a name as that of a key, a value of any
  bytes (as a word of a command line, of UTF-8), the id of the key that says so,
  and its signature in base64, with its padding and without space. The signature
  is carried and not checked. A certificate that is held is kept already.
  Prints nothing.
  Refused: the first of BadField signature, BadField name, TextTooLong (value or
  signature above 67108864 bytes), UnknownRevision.

certs REV
  Prints the certificates of a revision as stanzas, by name, key, value and
  signature, byte by byte.
  Refused: UnknownRevision.

branches
  Prints the values of all certificates named branch, one a line, in byte order.

heads BRANCH
  Prints the ids of the members of a branch, the revisions with a certificate
  named branch of that value, that are proper ancestors of no member.

commit --author=.. --branch=.. --changelog=.. --date=.. --key=KEYID <TEXT
  Accepts standard input as the text of a revision as put_revision does, and
  holds four certificates of it: author, branch, changelog, date. They are held
  also where the text is held already. All is kept, or nothing.
  Prints its id.
  Refused: what put_revision is refused for, then TextTooLong for the values.

merge_heads --author=.. --date=.. --key=KEYID BRANCH
merge_heads --author=.. --date=.. --key=KEYID --resolve BRANCH <RESOLUTIONS
  Accepts the merge of the two least heads of a branch as merge does, and holds
  four certificates of it; the changelog names the two heads.
  Prints the id of the merged revision; or, with status 3, the conflicts, and
  nothing is kept.
  Refused: NoBranch, OneHead (with its id), what merge is refused for, then
  TextTooLong for the values.

packets REV [REV..]
  Prints the packets of a revision and its ancestors, without those that the
  other revisions are or have as ancestors, in the order in which the store
  accepted them. A revision stands behind the files that its text brings, each
  printed once, and before its certificates, which are in the order of certs.
  The names of keys are not among them.
  Refused: UnknownRevision.

read <PACKETS
  Keeps the files, revisions and certificates of the packets on standard input,
  in their order: all of them, or nothing. A certificate names its key by the id,
  or by a name that this key alone has here. Public keys are passed over.
  Prints files F, revisions R, certs C, a line each: how many are new.
  Refused: the first of BadPacket (with the number of the first bad packet,
  counted from 1, and Truncated, Unsupported, NotPacket or BadBase64), IdMismatch
  (with the number of the first packet whose id is not that of what it holds,
  and the id of that), InPacket (with the number of a packet, and for what
  put_file or put_revision refuses what it holds; a certificate for the first of
  TextTooLong, UnknownRevision, UnknownKey).

check
  Looks at every record of the store: each has to be the one that the files, the
  texts of the revisions, the key names and the certificates make due. Nothing is
  written.
  Prints ok N, N the number of revisions; or, with status 8, the first damage.

migrate <TABLE
  Turns a store of the older form, whose certificates say the names of their
  keys, into the present one: each goes under the id that the key table on
  standard input gives the name, and the names of the table are kept; all of it,
  or nothing. Until then every other command is refused OldStore.
  Prints keys K, certs C, a line each.
  Refused: the first of TextTooLong, NotText, BadStanza, BadOrder, Repeated (an
  id or a name stands twice), NotOld (the store is new, or of the present form),
  UnknownKey (with the least name of a key that the table lacks).

generate N
  Makes a history of N revisions, 1 to 2000, in a store without any, all of it
  or nothing: a root with ten files, and then in turn a patch on the left side,
  an attribute on the right side, their merge and a renaming. The same N makes
  the same history everywhere.
  Prints revisions N, merges M, files F, last ID, a line each.
  Refused: StoreNotEmpty (with the number of revisions), Collision.

parents REV
  Prints the parents of a revision, ascending.
  Refused: UnknownRevision.

children REV
  Prints the revisions that have it as a parent, ascending.
  Refused: UnknownRevision.

ancestors REV..
  Prints the revisions that are a proper ancestor of at least one of these,
  ascending.
  Refused: UnknownRevision.

descendents REV..
  Prints the revisions that are a proper descendent of at least one of these,
  ascending.
  Refused: UnknownRevision.

common_ancestors REV..
  Prints the revisions that are each of these or an ancestor of it, ascending.
  Refused: UnknownRevision.

erase_ancestors [REV..]
  Prints those of the revisions that are proper ancestors of no other of them,
  ascending.
  Refused: UnknownRevision.

toposort [REV..]
  Prints the revisions in the order in which the store accepted them: parents
  before children.
  Refused: UnknownRevision.

ancestry_difference REV [REV..]
  Prints the first revision and its ancestors, without the others and theirs, in
  the order in which the store accepted them.
  Refused: UnknownRevision.

leaves
  Prints the revisions without children, ascending.

roots
  Prints the revisions without parents, ascending.

graph
  Prints a line for each revision, ascending: its id, and its parents' ids.

stdio <REQUESTS
  Does many commands at one opening of the store. Standard input is requests,
  each `l`, its words and `e`; a word is its size in decimal, `:` and its bytes.
  The last word of put_file, put_revision, commit, read and migrate, of merge
  and merge_heads with --resolve, is their input.
  Prints for request N, counted from 0, N:m:SIZE:OUTPUT and N:l:1:STATUS.
  Refused: BadRequest (with the number, counted from 1, of the first request that
  is not whole and right; nothing is done then).";

/// What each exit status leaves and asks of the user; a paragraph begins with its number.
pub const STATUSES: &str = "\
0 done
  The command was done, and its whole answer is written.

1 refused
  The line `refused NAME ..` is written, and the store is as it was. It stands
  on standard output: look at the status before you use what `>` caught. The
  names are explained in docs/FORMATS.md; `mtn --help COMMAND` lists those of a
  command.

2 usage
  `usage` is written; nothing was opened or read. A word is misspelt or is not
  UTF-8, an id has not 40 lower-case hexadecimal digits, a path is none, or the
  store's name is missing in front or empty. `mtn --help` lists the commands.

3 conflicts
  A merge found conflicts; their text is written, and the store is as it was.

4 the input failed
  Standard input could not be read. Nothing is written, and the store is as it
  was.

5 the output failed
  The command was done, and what it kept is kept; a front of its answer is
  written. Ask for the answer again. Where a pipe is closed at its other end, a
  signal ends the program instead (141 in a shell), and the same holds.

6 the store failed
  Nothing is written, and the store is as it was; of a session, as behind the
  requests that were answered. One of:
  - another command has the store open, or has just made it: try again;
  - STORE is a folder, a link to nothing, a file that has a second name, or begins
    with `file:`;
  - STORE is a file that is no store (`sqlite3 STORE .schema` shows what it is), or
    no whole one (`sqlite3 STORE 'PRAGMA integrity_check'`);
  - its folder is not there;
  - you may not read and write the file, STORE-wal beside it, and its folder;
  - the disk is full or failed. Where it failed while a command was kept, the
    store may be as behind it: look before you repeat it.

7 memory is wanting
  Nothing is written, and the store is as it was; of a session, as behind the
  requests that were answered. A command holds its input and its store in memory:
  give it more.

8 the store is damaged
  `damaged ..` or `missing ..` shows the record; nothing was changed, but by the
  requests of a session that were answered. Something else changed the store: use
  a copy that you kept.

9 the input is too long
  It has more than 268435456 bytes. Nothing is written, and the store is as it
  was.";

/// The paragraph of a text that begins with a word.
pub fn paragraph<'a>(text: &'a str, word: &str) -> Option<&'a str> {
    for part in text.split("\n\n") {
        let first = part.split(|c| c == ' ' || c == '\n').next();
        if first == Some(word) {
            return Some(part);
        }
    }
    None
}
