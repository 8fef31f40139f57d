//! The texts of the help.

use crate::Command;

/// What stands in front of the list of commands.
pub(crate) const FRONT: &str =
    "fallowtime keeps documents in named collections, in one file, which is an SQLite
database. Documents go in and out as MongoDB Extended JSON v2 or as BSON, every
double bit for bit and the keys in their order.

    fallowtime FILE COMMAND .. [OPTIONS]   does one command
    fallowtime FILE [--wait SECONDS]       keeps FILE open, and answers each
                                           line of standard input by a line; at
                                           a terminal it has a prompt
    fallowtime FILE --messages             answers MongoDB's messages, which a
                                           driver sends, by messages
    fallowtime help [COMMAND]              this, or what a command takes
    fallowtime --explain KIND              what a refusal means, and what to do
    fallowtime version                     which version this is
    fallowtime --version                   which program runs, and how it was
                                           built

Commands:
";

/// What stands behind it.
pub(crate) const BACK: &str = "
Options come last, in any order:
  --canonical      prints canonical Extended JSON, with the kind of each number;
                   else it is relaxed (insert, get, find, find-and-..,
                   distinct)
  --bson           writes documents as BSON (get, find, find-and-..)
  --pretty         prints a member or an item a line, as at a terminal (get,
                   find)
  --json           reads lines of Extended JSON, a document each (import)
  --many           all selected documents, and not only the first (update,
                   delete)
  --upsert         puts a document in if none is selected (update, replace-one);
                   or in the place of the one with its _id (import)
  --skip-existing  leaves documents out whose _id is there (import)
  --batch N        in steps of N lines of JSON (import)
  --count          how many documents have each value (distinct)
  --key            takes PATH as one key, also with dots (set, unset)
  --drop           removes what NEW has (rename)
  --sort KEYS      an order of documents (find, find-and-..)
  --skip N, --limit N
                   a part of them (find, find-and-.., count)
  --fields PATHS, --without PATHS
                   which fields of documents there are (find, find-and-..)
  --after          the document as it is after the change (find-and-update,
                   find-and-replace)
  --wait SECONDS   waits so long for a FILE that another process has; else 5

DOC and VALUE are Extended JSON, and so is ID; an ID that is no JSON is the text
itself. QUERY is in MongoDB's language: '{\"price\":{\"$gte\":1,\"$lt\":5}}'. A name,
an ID or a text may begin with -, a FILE that does is written ./-x.db.

A line of a session is a JSON array with the words of a command, where
documents, ids, queries and values are JSON themselves, and so is its answer:

    [\"insert\",\"orders\",{\"_id\":\"A\",\"price\":1.5}]  {\"_id\":\"A\"}
    [\"get\",\"orders\",9]                           {\"error\":\"NotFound\"}
    [\"index\",\"orders\",\"customer.city\"]           {}

The last one, in sessions alone, makes an index until the input ends, by which
queries for a value there are quick; drop_index drops it.

Status 0: done. 1: `refused: KIND`. 2: words that can't be read, `words: ..`.
125: there is no program, and none can be built.
";

/// What stands behind the text of each command.
pub(crate) const EVERY: &str = "
Each command may be refused for what is at fault with FILE, too: Busy, Denied,
NoDatabase, Journal, NotPlain, NoFolder, NoName, Disk, Database, NotAStore,
BadRow, IdsCollide; and by Memory and Writer. fallowtime --explain KIND says
what each means, and what to do.
";

const INSERT: &str = "
Puts the document DOC into the collection COLL, and prints its _id on a line.
DOC is Extended JSON. Without an _id it gets an ObjectId, put first. A FILE that
isn't there is made.

  --canonical      prints the _id as canonical Extended JSON
  --wait SECONDS   waits so long if another process has FILE; else 5

    fallowtime shop.db insert orders '{\"_id\":1,\"price\":1.5,\"city\":\"Ulm\"}'
    fallowtime shop.db insert orders '{\"price\":{\"$numberDecimal\":\"9.90\"}}'

May be refused: DuplicateId, BadName, TooDeep, TooLong, Nul, Places;
words: JSON.
";

const PUT: &str = "
Puts the document DOC into the collection COLL: in the place of the one with its
_id, or last if there is none. DOC has to have an _id. A FILE that isn't there
is made.

  --wait SECONDS   waits so long if another process has FILE; else 5

    fallowtime shop.db put orders '{\"_id\":1,\"price\":2.5}'
    fallowtime shop.db put orders '{\"_id\":\"A-4\",\"lines\":[]}' --wait 60

May be refused: NoId, BadName, TooDeep, TooLong, Nul, Places; words: JSON.
";

const REPLACE: &str = "
Puts the document DOC in the place of the one of the collection COLL that has
its _id.

  --wait SECONDS   waits so long if another process has FILE; else 5

    fallowtime shop.db replace orders '{\"_id\":1,\"price\":2.5,\"city\":\"Ulm\"}'
    fallowtime shop.db replace orders \"$(cat order.json)\"

May be refused: NotFound, NoId, NoFile, BadName, TooDeep, TooLong, Nul;
words: JSON.
";

const GET: &str = "
Prints the document of the collection COLL with this _id, on a line, as relaxed
Extended JSON. ID is Extended JSON; a word that is no JSON is the text itself,
so 42 is a number, and '\"42\"' is a text.

  --canonical      prints canonical Extended JSON, with the kind of each number
  --bson           writes the document as BSON
  --pretty         prints a member or an item a line, as at a terminal
  --wait SECONDS   waits so long if another process has FILE; else 5

    fallowtime shop.db get orders A-4
    fallowtime shop.db get orders '{\"$oid\":\"650000000000000000000002\"}'

May be refused: NotFound, NoFile, BadName, ReservedKey; words: id.
";

const SET: &str = "
Puts VALUE at PATH of the document with this _id: in the place of the value that
is there, or last. PATH is a key, or keys with dots between them, such as
to.city, as those of $set of update: documents that aren't there yet are made.
VALUE is Extended JSON, so a text has quotes of its own inside those of the
shell.

  --key            takes PATH as one key of the document, with its dots
  --wait SECONDS   waits so long if another process has FILE; else 5

    fallowtime shop.db set orders 1 status '\"paid\"'
    fallowtime shop.db set orders A-4 to.city '\"Ulm\"'

May be refused: NotFound, NoFile, BadName, BadKey, Through, TooDeep, TooLong,
Nul; words: id, words: JSON, words: update.
";

const UNSET: &str = "
Takes the value at PATH away from the document with this _id, and prints `true`
if one was there, else `false`. PATH is a key, or keys with dots between them,
such as to.city, as those of $unset of update.

  --key            takes PATH as one key of the document, with its dots
  --wait SECONDS   waits so long if another process has FILE; else 5

    fallowtime shop.db unset orders 1 status
    fallowtime shop.db unset orders A-4 to.city

May be refused: NotFound, NoFile, BadName, BadKey, Through; words: id, words:
update.
";

const UPDATE: &str = "
Updates the first document of the collection COLL that QUERY selects, or with
--many all of them, in one step: all or, if one of them can't be updated, none.
Prints how many were selected, and how many of these are other ones now:
{\"matched\":3,\"changed\":2}. QUERY is that of find, {} for every document; UPDATE
is in MongoDB's language: $set, $unset, $inc, $mul, $min, $max, $currentDate,
$push, $addToSet, $pull, $pullAll, $pop and $rename at paths.

With --upsert, if none is selected, a document is put in: the equality fields of
QUERY, {\"a.b\":1} and {\"a\":{\"$eq\":1}}, also within $and, with UPDATE made on
them, and what $setOnInsert sets. It gets an _id if QUERY has none. Prints that
_id: {\"matched\":0,\"changed\":0,\"upserted\":7}.

  --many           updates all documents that are selected; else the first
  --upsert         puts a document in if none is selected
  --wait SECONDS   waits so long if another process has FILE; else 5

    fallowtime shop.db update orders '{\"_id\":1}' '{\"$set\":{\"to.city\":\"Ulm\"}}'
    fallowtime shop.db update orders '{}' '{\"$inc\":{\"price\":-5}}' --many
    fallowtime shop.db update visits '{\"_id\":\"/\"}' '{\"$inc\":{\"n\":1}}' --upsert

May be refused: NoFile, BadName, Through, NotANumber, NotAnArray, Decimal,
Overflow, TooDeep, TooLong, Nul, DuplicateId; words: query, words: update.
";

const REPLACE_ONE: &str = "
Puts DOC in the place of the first document of the collection COLL that QUERY
selects, and prints how many were selected, and how many of these are other ones
now: {\"matched\":1,\"changed\":1}, or 0 and 0 if there is none. The document keeps
its _id: a DOC without one gets it, put first, and a DOC with another one is
refused (Id). QUERY is that of find, {} for every document.

With --upsert, if none is selected, DOC is put in, with the _id that QUERY asks
for, or with one that is made, if it has none. Prints that _id:
{\"matched\":0,\"changed\":0,\"upserted\":7}.

  --upsert         puts DOC in if no document is selected
  --wait SECONDS   waits so long if another process has FILE; else 5

    fallowtime shop.db replace-one orders '{\"price\":12}' '{\"price\":15}'
    fallowtime shop.db replace-one orders '{\"_id\":{\"$gt\":1}}' '{\"void\":true}'

May be refused: NoFile, BadName, Id, TooDeep, TooLong, Nul, DuplicateId; words:
query, words: JSON.
";

const DELETE: &str = "
Removes the first document of the collection COLL that QUERY selects, or with
--many all of them, in one step, and prints how many: 0 if there is none. QUERY
is that of find, {} for every document.

  --many           removes all documents that are selected; else the first
  --wait SECONDS   waits so long if another process has FILE; else 5

    fallowtime shop.db delete orders '{\"status\":\"void\"}' --many
    fallowtime shop.db delete orders '{\"total\":{\"$lte\":0}}'

May be refused: NoFile, BadName; words: query.
";

const FIND_AND_UPDATE: &str = "
Makes UPDATE of the first document of the collection COLL that find would print
with the same QUERY and options, and prints it as it was before, or with --after
as it is afterwards: nothing if there is none. It is found and changed in one
step, so no two processes take the same one. UPDATE is that of update.

  --sort KEYS      takes the first in the order of the values at paths: price:-1
                   has the greatest price first
  --skip N         passes over the first N
  --limit N        with 0 there is none; else of no account
  --fields PATHS   prints the fields at paths alone, and the _id
  --without PATHS  prints all other fields
  --after          prints the document as it is afterwards
  --canonical      prints canonical Extended JSON, with the kind of each number
  --bson           writes the document as BSON
  --wait SECONDS   waits so long if another process has FILE; else 5

    fallowtime shop.db find-and-update jobs '{}' '{\"$inc\":{\"n\":1}}' --sort _id
    fallowtime shop.db find-and-update ids '{}' '{\"$inc\":{\"next\":1}}' --after

A line of a session has the options as an object behind UPDATE:

    [\"find-and-update\",\"ids\",{},{\"$inc\":{\"next\":1}},{\"after\":true}]

May be refused: NoFile, BadName, Through, NotANumber, NotAnArray, Decimal,
Overflow, TooDeep, TooLong, Nul, and after the change ReservedKey; words: query,
update, fields.
";

const FIND_AND_REPLACE: &str = "
Puts DOC in the place of the first document of the collection COLL that find
would print with the same QUERY and options, and prints that one as it was
before, or with --after as it is afterwards: nothing if there is none. The
document keeps its _id, as of replace-one.

  --sort KEYS      takes the first in the order of the values at paths: price:-1
                   has the greatest price first
  --skip N         passes over the first N
  --limit N        with 0 there is none; else of no account
  --fields PATHS   prints the fields at paths alone, and the _id
  --without PATHS  prints all other fields
  --after          prints the document as it is afterwards
  --canonical      prints canonical Extended JSON, with the kind of each number
  --bson           writes the document as BSON
  --wait SECONDS   waits so long if another process has FILE; else 5

    fallowtime shop.db find-and-replace orders '{\"price\":12}' '{\"price\":15}'
    fallowtime shop.db find-and-replace orders '{}' '{\"n\":2}' --sort day --after

A line of a session has the options as an object behind DOC:

    [\"find-and-replace\",\"orders\",{},{\"void\":true},{\"sort\":{\"day\":1}}]

May be refused: NoFile, BadName, Id, TooDeep, TooLong, Nul, and after the change
ReservedKey; words: query, JSON, fields.
";

const FIND_AND_DELETE: &str = "
Removes the first document of the collection COLL that find would print with the
same QUERY and options, and prints it: nothing if there is none. It is found and
removed in one step, so no two processes take the same one.

  --sort KEYS      takes the first in the order of the values at paths: price:-1
                   has the greatest price first
  --skip N         passes over the first N
  --limit N        with 0 there is none; else of no account
  --fields PATHS   prints the fields at paths alone, and the _id
  --without PATHS  prints all other fields
  --canonical      prints canonical Extended JSON, with the kind of each number
  --bson           writes the document as BSON
  --wait SECONDS   waits so long if another process has FILE; else 5

    fallowtime shop.db find-and-delete jobs '{}' --sort priority:-1,_id
    fallowtime shop.db find-and-delete orders '{\"status\":\"void\"}' --bson

A line of a session has the options as an object behind the query:

    [\"find-and-delete\",\"jobs\",{},{\"sort\":{\"priority\":-1,\"_id\":1}}]

May be refused: NoFile, BadName, and after the change ReservedKey; words: query,
fields.
";

const REMOVE: &str = "
Removes the document of the collection COLL with this _id.

  --wait SECONDS   waits so long if another process has FILE; else 5

    fallowtime shop.db remove orders 1
    fallowtime shop.db remove orders '{\"$oid\":\"650000000000000000000002\"}'

May be refused: NotFound, NoFile, BadName; words: id.
";

const FIND: &str = "
Prints the documents of the collection COLL that QUERY selects, or all of them,
a line of relaxed Extended JSON each. QUERY is in MongoDB's language: paths with
values, $eq, $ne, $gt, $gte, $lt, $lte, $in, $nin, $all, $elemMatch, $size,
$exists, $type, $mod, $regex with $options and $not, joined by $and, $or and
$nor; an array is also its items.

  --sort KEYS      prints them in the order of the values at paths: by
                   price:-1,name the greatest price is first, and names of one
                   price ascend
  --skip N         leaves out the first N
  --limit N        prints N at the most
  --fields PATHS   prints the fields at paths alone, and the _id: name,to.city
  --without PATHS  prints all other fields; beside --fields it may be _id alone
  --canonical      prints canonical Extended JSON, with the kind of each number
  --bson           writes the documents as BSON, one after the other
  --pretty         prints a member or an item a line, as at a terminal
  --wait SECONDS   waits so long if another process has FILE; else 5

    fallowtime shop.db find orders '{\"customer.city\":\"Ulm\",\"price\":{\"$gt\":10}}'
    fallowtime shop.db find orders --sort price:-1,name --limit 10
    fallowtime shop.db find orders --fields name,customer.city --without _id
    fallowtime shop.db find orders --bson > orders.bson

A line of a session has them as an object behind the query:

    [\"find\",\"orders\",{},{\"sort\":{\"price\":-1,\"name\":1},\"limit\":10}]
    [\"find\",\"orders\",{},{\"fields\":{\"name\":1,\"customer.city\":1,\"_id\":0}}]

May be refused: NoFile, BadName, ReservedKey; words: query, fields.
";

const COUNT: &str = "
Prints how many documents of the collection COLL the QUERY selects, or how many
there are. QUERY is that of find.

  --skip N         leaves the first N out
  --limit N        prints N if there are more
  --wait SECONDS   waits so long if another process has FILE; else 5

    fallowtime shop.db count orders
    fallowtime shop.db count orders '{\"$or\":[{\"price\":0},{\"gift\":true}]}'

A line of a session has the options as an object behind QUERY:

    [\"count\",\"orders\",{\"gift\":true},{\"skip\":10,\"limit\":100}]

May be refused: NoFile, BadName; words: query.
";

const DISTINCT: &str = "
Prints the different values at PATH of the documents of the collection COLL that
the QUERY selects, or of all: a value a line, in the order of values. QUERY is
that of find. PATH is keys with a dot between them; it goes through arrays, and
of an array at its end each item is a value. Of equal values, as 1 and 1.0, the
first one is printed. A document without PATH has no value.

  --count          prints objects, as {\"value\":\"Ulm\",\"count\":3}: a value, and
                   how many of the documents have it
  --canonical      prints canonical Extended JSON, with the kind of each number
  --wait SECONDS   waits so long if another process has FILE; else 5

    fallowtime shop.db distinct orders customer.city
    fallowtime shop.db distinct orders tags '{\"price\":{\"$gt\":10}}' --count

On a line of a session the options are an object behind the QUERY:

    [\"distinct\",\"orders\",\"tags\",{},{\"count\":true}]

May be refused: NoFile, BadName, ReservedKey; words: query.
";

const AGGREGATE: &str = "
Prints the documents that a PIPELINE makes of those of the collection COLL: an
array of stages, each of which takes what the one in front of it made.

  {\"$match\":QUERY}     those that answer the query, which is that of find
  {\"$sort\":KEYS}       all, in an order: {\"price\":-1,\"name\":1}
  {\"$skip\":N}          all but the first N
  {\"$limit\":N}         the first N
  {\"$project\":FIELDS}  of each these fields: {\"name\":1,\"_id\":0}
  {\"$count\":\"NAME\"}    their number
  {\"$unwind\":\"$PATH\"}  one for each item of an array
  {\"$group\":{\"_id\":KEY,\"NAME\":{\"$sum\":VALUE}}}
                       one for each KEY, with fields by $sum, $avg, $min, $max,
                       $first, $last, $push, $addToSet or $count

KEY and VALUE are \"$PATH\", what a document has there, or a number, a text, true,
false or null.

  --wait SECONDS   waits so long if another process has FILE; else 5

    fallowtime shop.db aggregate orders '[{\"$unwind\":\"$tags\"},{\"$count\":\"tags\"}]'
    fallowtime shop.db aggregate orders '[{\"$group\":{\"_id\":\"$to\",\"n\":{\"$sum\":1}}}]'

May be refused: NoFile, BadName, ReservedKey, Decimal, Overflow, TooDeep,
TooLong, Nul; words: query, stages.
";

const IMPORT: &str = "
Puts the documents of the file INPUT, or of standard input, into the collection
COLL, all or none, and prints their number. They are BSON, one after the other,
each with its _id; those of an INPUT .json, .jsonl or .ndjson are JSON. A FILE
that isn't there is made.

  --json           reads lines of Extended JSON, a document each, which without
                   an _id gets an ObjectId; a line of no bytes is left out.
                   A file may be an array of documents, or have each over several
                   lines, too
  --upsert         puts a document whose _id is there, in COLL or in front of it,
                   in the place of that one
  --skip-existing  leaves such a document out; without either the import is
                   refused
  --batch N        puts in N lines of JSON at a time, each batch in one step, and
                   prints after each how many documents are in; it ends with the
                   first that is refused, whose line is that of the batch
  --wait SECONDS   waits so long if another process has FILE; else 5

    fallowtime shop.db import orders orders.bson
    fallowtime shop.db import orders --json < orders.jsonl

The number is that of all documents of INPUT. A line of a session has the option
as an object behind the documents:

    [\"import\",\"orders\",[{\"_id\":1},{\"_id\":2}],{\"upsert\":true}]

May be refused: DuplicateId, NoId, EndInside, BadLength, NotTerminated, Faulty,
TooDeep, TooLong, BadName, Places, Reader; words: line.
";

const EXPORT: &str = "
Writes all documents of the collection COLL as BSON, one after the other, in
the order in which they came.

  --wait SECONDS   waits so long if another process has FILE; else 5

    fallowtime shop.db export orders > orders.bson
    fallowtime shop.db export orders | fallowtime copy.db import orders

May be refused: NoFile, BadName, Writer.
";

const DROP: &str = "
Removes the collection COLL with all its documents, in one step, and prints how
many they were: 0 if there is no such collection.

  --wait SECONDS   waits so long if another process has FILE; else 5

    fallowtime shop.db drop orders
    fallowtime shop.db drop '2024 orders' --wait 60

May be refused: NoFile, BadName.
";

const RENAME: &str = "
Gives the collection COLL the name NEW, in one step, and prints how many
documents it has. They keep their order. NEW must not have a document yet,
except with --drop.

  --drop           removes the documents of NEW in the same step
  --wait SECONDS   waits so long if another process has FILE; else 5

    fallowtime shop.db rename orders orders-2024
    fallowtime shop.db rename staged orders --drop

A line of a session has the option as an object behind NEW:

    [\"rename\",\"staged\",\"orders\",{\"drop\":true}]

May be refused: NotFound, if COLL has no document; DuplicateId, if NEW has one,
or is COLL; NoFile, BadName, Places.
";

const COPY: &str = "
Puts the documents of the collection COLL into the collection NEW, too, in one
step and in their order, and prints how many they are. NEW must not have a
document yet.

  --wait SECONDS   waits so long if another process has FILE; else 5

    fallowtime shop.db copy orders orders-before
    fallowtime shop.db copy orders trial --wait 60

May be refused: NotFound, if COLL has no document; DuplicateId, if NEW has one;
NoFile, BadName, Places.
";

const COLLECTIONS: &str = "
Prints the names of the collections that have a document, one a line; as texts
of JSON if one of them has a line feed in it.

  --wait SECONDS   waits so long if another process has FILE; else 5

    fallowtime shop.db collections
    fallowtime ./-x.db collections --wait 0

May be refused: NoFile.
";

const CHECK: &str = "
Reads all of FILE and tests each row, page and index, and then prints how many
documents all collections have, or is refused by what is at fault. Other
commands that only read test no more than what they need. A line of a session
counts alone, as all was tested when FILE was opened.

  --wait SECONDS   waits so long if another process has FILE; else 5

    fallowtime shop.db check
    fallowtime shop-monday.db check --wait 60

May be refused: NoFile, NotAStore, BadRow, IdsCollide.
";

const BACKUP: &str = "
Writes all that FILE holds into the new file PATH, also while another process
has FILE. PATH must not be there.

  --wait SECONDS   waits so long if another process writes FILE without a pause;
                   else 5

    fallowtime shop.db backup shop-monday.db
    fallowtime shop.db backup \"shop-$(date +%F).db\"

May be refused: Exists, NoFile.
";

const APPLY: &str = "
Does the requests that the lines of standard input are, as one list: all of them
in one step, or none. A request is an array of a command's name and its
arguments, as a line over fallowtime FILE has it; a list has insert, put,
replace, get, set, unset and remove. Prints the answer of each on a line.

  --wait SECONDS   waits so long if another process has FILE; else 5

    fallowtime shop.db apply < changes.jsonl
    fallowtime shop.db apply <<'END'
    [\"set\",\"accounts\",\"alice\",\"balance\",70]
    [\"set\",\"accounts\",\"bob\",\"balance\",130]
    END

May be refused: as each request by itself, with the line that is refused; then
nothing is done, and nothing printed.
";

const INDEX: &str = "
Makes an index of the collection COLL on a path, the keys between its dots as in
a QUERY. No answer changes, and queries for a value there come sooner. It is
kept in memory until the input ends.

    [\"index\",\"orders\",\"customer.city\"]

May be refused: BadName, Database; Words: collection, path.
";

const DROP_INDEX: &str = "
Drops the index of the collection COLL on a path, if there is one.

    [\"drop_index\",\"orders\",\"customer.city\"]

May be refused: BadName; Words: collection, path.
";

const IMPORT_ALL: &str = "
Puts the documents of each DIR/COLL.bson into the collection COLL, and prints
its name and their number. DIR is what mongodump makes for a database, and
export-all. Each collection is one step: if one is refused, those that were
printed stay. A FILE that isn't there is made.

  --wait SECONDS   waits so long if another process has FILE; else 5

    fallowtime shop.db import-all dump/shop
    fallowtime copy.db import-all shop-monday

May be refused: DuplicateId, NoId, EndInside, BadLength, NotTerminated, Faulty,
TooDeep, TooLong, BadName, Places.
";

const EXPORT_ALL: &str = "
Writes all documents of each collection into DIR/COLL.bson, as they are at one
moment, and beside it what mongorestore reads, DIR/COLL.metadata.json, and
prints the name of each and their number. A DIR that isn't there is made; no
file is written over.

  --wait SECONDS   waits so long if another process writes FILE without a pause;
                   else 5

    fallowtime shop.db export-all shop-monday
    fallowtime shop.db export-all \"shop-$(date +%F)\"

May be refused: NoFile.
";

const EDIT: &str = "
Opens the document with this _id in $VISUAL, $EDITOR or vi, as canonical
Extended JSON, and puts what is saved there in its place. If that is no document
with the same _id, or the document was changed meanwhile, nothing is changed,
and the file is named in which it is.

  --wait SECONDS   waits so long if another process has FILE; else 5

    fallowtime shop.db edit orders A-4
    fallowtime shop.db edit orders '{\"$oid\":\"650000000000000000000002\"}'

May be refused: NotFound, NoFile, BadName, ReservedKey, NoId, TooDeep, TooLong,
Nul; words: id, words: JSON.
";

const ABOUT_VERSION: &str = "
Prints `fallowtime` and the number of this version. fallowtime --version says,
too, from which commit the program was built, and how.
";

/// The version, as the file VERSION has it.
pub(crate) const VERSION: &str = "fallowtime 0.1.0\n";

/// What a command does, its options, examples and refusals.
pub(crate) fn text_of(command: Command) -> &'static str {
    match command {
        Command::Insert => INSERT,
        Command::Put => PUT,
        Command::Replace => REPLACE,
        Command::Get => GET,
        Command::Set => SET,
        Command::Unset => UNSET,
        Command::Update => UPDATE,
        Command::ReplaceOne => REPLACE_ONE,
        Command::Delete => DELETE,
        Command::FindAndUpdate => FIND_AND_UPDATE,
        Command::FindAndReplace => FIND_AND_REPLACE,
        Command::FindAndDelete => FIND_AND_DELETE,
        Command::Remove => REMOVE,
        Command::Find => FIND,
        Command::Count => COUNT,
        Command::Distinct => DISTINCT,
        Command::Aggregate => AGGREGATE,
        Command::Import => IMPORT,
        Command::Export => EXPORT,
        Command::Drop => DROP,
        Command::Rename => RENAME,
        Command::Copy => COPY,
        Command::Collections => COLLECTIONS,
        Command::Check => CHECK,
        Command::Backup => BACKUP,
        Command::Apply => APPLY,
        Command::Index => INDEX,
        Command::DropIndex => DROP_INDEX,
        Command::Version => ABOUT_VERSION,
        Command::ImportAll => IMPORT_ALL,
        Command::ExportAll => EXPORT_ALL,
        Command::Edit => EDIT,
    }
}
