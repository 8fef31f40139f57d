//! What each kind of refusal means, and what to do: the items of docs/ERRORS.md that name it, those of `fallowtime` alone
//! if it has one.

/// An item of the page.
#[derive(Clone, Copy)]
pub(crate) enum Item {
    Usage,
    Options,
    Argument,
    Id,
    Filter,
    Line,
    JsonRefused,
    FiniteDouble,
    ReservedKey,
    NotAnObject,
    Nul,
    Stream,
    TooDeep,
    TooLong,
    JsonLine,
    NoId,
    DuplicateId,
    NotFound,
    BadName,
    BadKey,
    Database,
    NotAStore,
    BadRow,
    IdsCollide,
    Places,
    Memory,
    Reader,
    Writer,
    BsonStream,
    LineUtf8,
    NoFile,
    Busy,
    Denied,
    NoDatabase,
    Journal,
    NotPlain,
    NoFolder,
    NoName,
    Exists,
    Disk,
    Query,
    Stages,
    Update,
    Words,
    Through,
    NotANumber,
    NotAnArray,
    Decimal,
    Overflow,
    OtherId,
}

/// A kind of refusal.
#[derive(Clone, Copy)]
pub(crate) struct Kind {
    /// Its name.
    pub(crate) name: &'static str,
    /// The items that name it.
    pub(crate) items: &'static [Item],
}

/// The kinds, in the order of the page.
pub(crate) const KINDS: [Kind; 58] = [
    Kind {
        name: "usage",
        items: &[Item::Usage],
    },
    Kind {
        name: "options",
        items: &[Item::Options],
    },
    Kind {
        name: "fields",
        items: &[Item::Options],
    },
    Kind {
        name: "JSON",
        items: &[Item::Argument],
    },
    Kind {
        name: "id",
        items: &[Item::Id],
    },
    Kind {
        name: "filter",
        items: &[Item::Filter],
    },
    Kind {
        name: "line",
        items: &[Item::Line],
    },
    Kind {
        name: "JsonRefused",
        items: &[Item::JsonRefused],
    },
    Kind {
        name: "FiniteDouble",
        items: &[Item::FiniteDouble],
    },
    Kind {
        name: "ReservedKey",
        items: &[Item::ReservedKey],
    },
    Kind {
        name: "NotAnObject",
        items: &[Item::NotAnObject],
    },
    Kind {
        name: "Nul",
        items: &[Item::Nul],
    },
    Kind {
        name: "EndInside",
        items: &[Item::Stream],
    },
    Kind {
        name: "BadLength",
        items: &[Item::Stream],
    },
    Kind {
        name: "NotTerminated",
        items: &[Item::Stream],
    },
    Kind {
        name: "Faulty",
        items: &[Item::Stream],
    },
    Kind {
        name: "TooDeep",
        items: &[Item::TooDeep],
    },
    Kind {
        name: "TooLong",
        items: &[Item::TooLong, Item::JsonLine],
    },
    Kind {
        name: "NoId",
        items: &[Item::NoId],
    },
    Kind {
        name: "DuplicateId",
        items: &[Item::DuplicateId],
    },
    Kind {
        name: "NotFound",
        items: &[Item::NotFound],
    },
    Kind {
        name: "BadName",
        items: &[Item::BadName],
    },
    Kind {
        name: "BadKey",
        items: &[Item::BadKey],
    },
    Kind {
        name: "Database",
        items: &[Item::Database],
    },
    Kind {
        name: "NotAStore",
        items: &[Item::NotAStore],
    },
    Kind {
        name: "BadRow",
        items: &[Item::BadRow],
    },
    Kind {
        name: "IdsCollide",
        items: &[Item::IdsCollide],
    },
    Kind {
        name: "Places",
        items: &[Item::Places],
    },
    Kind {
        name: "Memory",
        items: &[Item::Memory],
    },
    Kind {
        name: "Reader",
        items: &[Item::Reader],
    },
    Kind {
        name: "Writer",
        items: &[Item::Writer],
    },
    Kind {
        name: "MalformedValue",
        items: &[Item::BsonStream, Item::JsonLine],
    },
    Kind {
        name: "Utf8EncodingError",
        items: &[Item::BsonStream, Item::LineUtf8],
    },
    Kind {
        name: "NotJson",
        items: &[Item::Argument],
    },
    Kind {
        name: "RepeatedKey",
        items: &[Item::JsonLine],
    },
    Kind {
        name: "NumberOutOfRange",
        items: &[Item::JsonLine],
    },
    Kind {
        name: "InvalidObjectId",
        items: &[Item::JsonLine],
    },
    Kind {
        name: "NotExtendedJson",
        items: &[Item::JsonLine],
    },
    Kind {
        name: "NoFile",
        items: &[Item::NoFile],
    },
    Kind {
        name: "Busy",
        items: &[Item::Busy],
    },
    Kind {
        name: "Denied",
        items: &[Item::Denied],
    },
    Kind {
        name: "NoDatabase",
        items: &[Item::NoDatabase],
    },
    Kind {
        name: "Journal",
        items: &[Item::Journal],
    },
    Kind {
        name: "NotPlain",
        items: &[Item::NotPlain],
    },
    Kind {
        name: "NoFolder",
        items: &[Item::NoFolder],
    },
    Kind {
        name: "NoName",
        items: &[Item::NoName],
    },
    Kind {
        name: "Exists",
        items: &[Item::Exists],
    },
    Kind {
        name: "Disk",
        items: &[Item::Disk],
    },
    Kind {
        name: "query",
        items: &[Item::Query],
    },
    Kind {
        name: "stages",
        items: &[Item::Stages],
    },
    Kind {
        name: "update",
        items: &[Item::Update],
    },
    Kind {
        name: "Through",
        items: &[Item::Through],
    },
    Kind {
        name: "NotANumber",
        items: &[Item::NotANumber],
    },
    Kind {
        name: "NotAnArray",
        items: &[Item::NotAnArray],
    },
    Kind {
        name: "Decimal",
        items: &[Item::Decimal],
    },
    Kind {
        name: "Overflow",
        items: &[Item::Overflow],
    },
    Kind {
        name: "Id",
        items: &[Item::OtherId],
    },
    Kind {
        name: "Usage",
        items: &[Item::Words],
    },
];

const OPTIONS: &str =
    "  `words: options`, `words: fields`: a path of `--sort`, `--fields` or `--without` is likely to mean something else, as
  `-price` is or one with a space in it; or, `fields`, these paths can't name fields: a key is empty or begins with `$`,
  one path leads into another, or beside kept fields others than the `_id` are left out.
";

const USAGE: &str =
    "  `words: usage`: there is no such command, it has too few or too many places, an option that it doesn't have, or one
  twice, or FILE begins with `-`, which is written `./-x.db`. Options come last. `fallowtime COMMAND --help` says what a
  command takes, and on a terminal so does a second line.
";

const ARGUMENT: &str =
    "  `words: JSON byte N NotJson`: DOC or VALUE is no JSON from its byte N on, counted from 1. A text has quotes of its own
  inside those of the shell: `set orders 1 status '\"new\"'`. Or it is JSON, and what is at fault in it is in the
  place of byte and `NotJson`: `RepeatedKey` and the like.
";

const ID: &str =
    "  `words: id`: ID is JSON, but no value of Extended JSON, for the reason that follows: `{\"$oid\":\"12\"}`. A word that is
  no JSON is the text itself, so `A-4` and `'\"A-4\"'` are one ID, but `42` is a number and `'\"42\"'` a text.
";

const FILTER: &str =
    "  `words: filter`: the FILTER isn't one of its six forms, or a value in it is refused. It has one key, and a path is a
  list of texts: `{\"eq\":[[\"customer\",\"city\"],\"Ulm\"]}` and not `{\"customer.city\":\"Ulm\"}`. The place of an array is a text
  too, `\"0\"`. A kind is a number: `{\"kind\":[[\"weight\"],1]}`. A double can't be looked for by its value.
";

const LINE: &str =
    "  `words: line N`: line N of what `import --json` reads is no document, for the reason that follows. Nothing was
  imported.
";

const JSON_REFUSED: &str =
    "  `JsonRefused`: the JSON is no Extended JSON that is taken here: a number with a point or an exponent (`1.5`), a `$oid`
  of other than 24 hexadecimal digits, `{\"$numberInt\":1}` without quotes. Write a decimal, `{\"$numberDecimal\":\"1.5\"}`;
  or make BSON, which keeps doubles: `bson_json --to-bson < orders.jsonl | bson_store shop.db import orders`.
";

const FINITE_DOUBLE: &str =
    "  `FiniteDouble`: JSON was asked for (`get`, `dump`), and a document has a double such as 1.5, which is never written as
  text. `export` or `find` gives its BSON: `bson_store shop.db export orders | bson_json`.
";

const RESERVED_KEY: &str =
    "  `ReservedKey`: below the top of a document, the one with this `_id`, is a key such as `$oid`, at this path, so its
  JSON would read as another document. What came before it was printed. `--bson` and `export` give its BSON.
";

const NOT_AN_OBJECT: &str =
    "  `NotAnObject`: the JSON is `[..]`, a text or a number where a document has to be, `{\"_id\":..}`.
";

const NUL: &str =
    "  `Nul`: a key, a pattern or options have a 00 in them (`\\u0000` in JSON), which BSON can't hold.
";

const STREAM: &str =
    "  `EndInside`, `BadLength`, `NotTerminated`, `Faulty`: what `import` reads is no BSON from document N on, or is cut off.
  For lines of JSON say `--json`.
";

const TOO_DEEP: &str = "  `TooDeep`: a document has more than 100 levels.
";

const TOO_LONG: &str = "  `TooLong`: a document has more than 16777216 bytes as it is written.
";

const JSON_LINE: &str =
    "  `words: line N RepeatedKey`: a document has a key twice; `NumberOutOfRange`: a number is too large for a double, or
  whole and outside 64 bits (write `{\"$numberDecimal\":\"..\"}`); `InvalidObjectId`: a `$oid` of other than 24 hexadecimal
  digits; `NotExtendedJson`: the line is no object, or a wrapper such as `{\"$numberInt\":1}` has another form;
  `MalformedValue`: a 00 in a key, a pattern or options; `TooLong`: the line has more than 64 MiB.
";

const NO_ID: &str =
    "  `NoId`: the document has no `_id`: `put`, `replace` and `import` of BSON make none. `insert` and `import --json` do.
";

const DUPLICATE_ID: &str =
    "  `DuplicateId`: the collection has a document with this `_id`, or the input of `import` has two, and then none went in.
  `put` and `import --upsert` put a document in the place of the one that is there, and `import --skip-existing` leaves
  it out. The kinds of numbers are different `_id`s, see USING.md. Of `rename` and `copy`:
  NEW has a document already; `drop` removes it, and so does `rename --drop`.
";

const NOT_FOUND: &str =
    "  `NotFound`: the collection has no document with this `_id`, or, of `rename` and `copy`, no document at all. A text is
  no number and no ObjectId: ID is `42` for the number, `'\"42\"'` for the text, `'{\"$oid\":\"65..\"}'` for an ObjectId.
  `fallowtime shop.db find orders | head -n 1` shows one, and `collections` which collections there are.
";

const BAD_NAME: &str = "  `BadName`: the name of the collection is empty, or has a 00.
";

const BAD_KEY: &str =
    "  `BadKey`: `set` or `unset` of the key `_id`, which stays as it is. `remove` and `insert` the document instead.
";

const DATABASE: &str =
    "  `Database`: something went wrong once FILE was open: the disk is full or at fault, FILE would grow past `ulimit -f`,
  or a rule of somebody else's table refuses what was asked for.
";

const NOT_ASTORE: &str =
    "  `NotAStore`: the file is an SQLite database with another table `documents`, which the store leaves alone. Use another
  file.
";

const BAD_ROW: &str =
    "  `BadRow P`: this store can't have written the row whose `place` is P; something else changed it. Go back to a back-up,
  or do without it: `sqlite3 shop.db 'delete from documents where place = P'`.
";

const IDS_COLLIDE: &str =
    "  `IdsCollide P Q`: the rows at places P and Q have `_id`s that mean the same, since they differ in the sign of a zero
  alone; an earlier version kept them apart. Save one of the two and delete its row by `sqlite3`, as above.
";

const PLACES: &str =
    "  `Places`: no numbers are left for new rows, as something gave a row a very large `place`. `export` each collection and
  `import` it into a new file.
";

const MEMORY: &str =
    "  `Memory`: the system gave no more memory. `import` and `load` hold all that they read: give them less at a time. The
  levels of a request take stack, of which the program makes sure before it begins; `ulimit -v` counts it, and of
  `ulimit -s` 7 MB are enough for every request. In a program of your own `Memory` is also returned for JSON trees and
  bytes of more than 1000 levels.
";

const READER: &str = "  `Reader`: standard input can't be read.
";

const WRITER: &str =
    "  `Writer`: standard output can't be written: the disk is full, or, of bson_store, the next command of a pipe, such as
  `head`, has ended. fallowtime and bson_json end in silence then, with status 141, as `cat` does; a change whose answer
  nobody reads is made.
";

const BSON_STREAM: &str =
    "  `refused: EndInside document N`, `BadLength`, `MalformedValue`, `Utf8EncodingError`: the input of `bson_json` is no
  BSON from document N on, counted from 0: the bytes end inside it, its length is under 5 or over 16777216, an element
  is malformed, a text isn't UTF-8. For JSON as input say `--to-bson`.
";

const LINE_UTF8: &str =
    "  `words: line N byte B Utf8EncodingError`: the line isn't UTF-8 from that byte on.
";

const NO_FILE: &str =
    "  `NoFile`: FILE isn't there, and the command doesn't make it: `insert`, `put`, `import` and `fallowtime FILE` alone do.
  Mostly it is a mistyped path. `fallowtime NAME` of a single word makes none, but `fallowtime ./NAME` does.
";

const BUSY: &str =
    "  `Busy`: another process has FILE, and had it for as long as was waited, which is 5 seconds unless `--wait SECONDS`
  says something else. `fallowtime FILE` has it until its input ends, and `sqlite3` while it has it open. Or, for a
  command that only reads: another process wrote FILE so often that it couldn't be read in one state. Or, for `backup`:
  another one writes this PATH.
";

const DENIED: &str =
    "  `Denied`: FILE, the log beside it (`FILE-wal`) or its folder can't be read or written by this user; also a file that
  may be read but not written, for a command that changes it, and a file system that is mounted for reading alone.
";

const NO_DATABASE: &str =
    "  `NoDatabase`: FILE is no SQLite database, or one that is damaged; or it is sound, but another table of it isn't
  understood here, such as a virtual one. `sqlite3 shop.db 'pragma integrity_check'` says `ok` of a sound one:
  FILES has which these are and what helps, and nothing of them is lost. Of one that
  is damaged go back to a back-up.
";

const JOURNAL: &str =
    "  `Journal`: a rollback journal (`FILE-journal`) is beside FILE: another program was killed as it changed the file, or
  is changing it. `sqlite3 shop.db 'select 1'` plays it back, unless FILE is a back-up that was put there since: then
  delete the journal.
";

const NOT_PLAIN: &str =
    "  `NotPlain`: FILE, or the log (`FILE-wal`) or the journal (`FILE-journal`) beside it, is no plain file: a folder, a
  pipe, a device, a file that has a second hard link (`cp -al`, `ln`), whose log would be beside one of its names, a
  symbolic link in the place of the log or the journal, or, for a command that makes FILE, one to nothing. `cp` makes a
  copy that has one name. The second name may be `FILE-copying`, if FILE is a back-up that was killed as it was done:
  delete that.
";

const NO_FOLDER: &str =
    "  `NoFolder`: the folder that FILE or PATH is to be in isn't there, or a part of the path is no folder.
";

const NO_NAME: &str =
    "  `NoName`: SQLite has another use for the name of FILE: `:memory:` and names that begin with `file:`, which `./` in
  front makes names of files; or for that of PATH: also names that end in `-wal`, `-journal` or `-shm`.
";

const EXISTS: &str =
    "  `Exists`: PATH of `backup` is there already, or a log or journal of that name (`PATH-wal`, `PATH-journal`), which
  would be played over the new file, or something that is no plain file at `PATH-copying`, where PATH is written.
  Nothing is written over. Choose another PATH, or move what is there away.
";

const DISK: &str =
    "  `Disk`: as FILE was opened or PATH was written, the disk was full or at fault, or the system refused to read or write
  it; so is a file that would grow past `ulimit -f` then.
";

const QUERY: &str =
    "  `words: query`: QUERY is no query of the language, for the reason that follows: it is no JSON from a byte on, or no
  object, a key comes twice, there is no operator of that name, or an operator or a path takes no such value. Or it is
  one, and with `--upsert` it asks for two values at one path, or at one inside the other.
";

const STAGES: &str =
    "  `words: stages`: PIPELINE is no array of stages: it is no JSON, an object in it has a key twice, one of its items is
  no object of one member, there is no stage of that name, or a stage takes no such value. A path is `\"$a.b\"`, with its
  `$` and without empty keys, and the name of a field has neither a `$` in front nor a dot.
";

const UPDATE: &str =
    "  `words: update`: UPDATE is no update of the language, for the reason that follows: it is no JSON from a byte on, or no
  object, a key comes twice, there is no operator of that name, an operator has no object of paths, or an operator isn't
  made at a path. Or the PATH of `set` or `unset` isn't one of `$set` or `$unset`: with `--key` it is one key, with its
  dots.
";

const THROUGH: &str =
    "  `Through`: of `update`, `set` and `unset`: a path leads through a value that is no document, such as `a.b` where `a`
  is a number or an array. N counts the documents that `find COLL QUERY` prints, and is 0 of `set` and `unset`; without
  it the document is that of `--upsert`. Nothing was changed, as after each of the next five.
";

const NOT_A_NUMBER: &str = "  `NotANumber`: `$inc` or `$mul` of a value that is no number.
";

const NOT_AN_ARRAY: &str =
    "  `NotAnArray`: `$push`, `$addToSet`, `$pull`, `$pullAll` or `$pop` of a value that is no array.
";

const DECIMAL: &str =
    "  `Decimal`: `$inc` or `$mul` of a decimal, or by one: sums and products of decimals aren't made here. `$set` the
  result.
";

const OVERFLOW: &str =
    "  `Overflow`: `$inc` or `$mul` of whole numbers whose result has no room in 64 bits.
";

const OTHER_ID: &str =
    "  `Id`: of `replace-one`: DOC has another `_id` than the document that it would replace, or, with `--upsert`, than QUERY
  asks for. Without one it keeps what was there.
";

const WORDS: &str =
    "  `Usage`: over `fallowtime FILE`, the answer to a line that is no JSON or no request; `at` says what can't be read.
";

/// The text of an item on devices, files, queries and updates; of any other one that of `Words`.
fn text_of_further(item: Item) -> &'static str {
    match item {
        Item::Writer => WRITER,
        Item::BsonStream => BSON_STREAM,
        Item::LineUtf8 => LINE_UTF8,
        Item::NoFile => NO_FILE,
        Item::Busy => BUSY,
        Item::Denied => DENIED,
        Item::NoDatabase => NO_DATABASE,
        Item::Journal => JOURNAL,
        Item::NotPlain => NOT_PLAIN,
        Item::NoFolder => NO_FOLDER,
        Item::NoName => NO_NAME,
        Item::Exists => EXISTS,
        Item::Disk => DISK,
        Item::Query => QUERY,
        Item::Stages => STAGES,
        Item::Update => UPDATE,
        Item::Through => THROUGH,
        Item::NotANumber => NOT_A_NUMBER,
        Item::NotAnArray => NOT_AN_ARRAY,
        Item::Decimal => DECIMAL,
        Item::Overflow => OVERFLOW,
        Item::OtherId => OTHER_ID,
        _ => WORDS,
    }
}

/// The text of an item.
pub(crate) fn text_of(item: Item) -> &'static str {
    match item {
        Item::Usage => USAGE,
        Item::Options => OPTIONS,
        Item::Argument => ARGUMENT,
        Item::Id => ID,
        Item::Filter => FILTER,
        Item::Line => LINE,
        Item::JsonRefused => JSON_REFUSED,
        Item::FiniteDouble => FINITE_DOUBLE,
        Item::ReservedKey => RESERVED_KEY,
        Item::NotAnObject => NOT_AN_OBJECT,
        Item::Nul => NUL,
        Item::Stream => STREAM,
        Item::TooDeep => TOO_DEEP,
        Item::TooLong => TOO_LONG,
        Item::JsonLine => JSON_LINE,
        Item::NoId => NO_ID,
        Item::DuplicateId => DUPLICATE_ID,
        Item::NotFound => NOT_FOUND,
        Item::BadName => BAD_NAME,
        Item::BadKey => BAD_KEY,
        Item::Database => DATABASE,
        Item::NotAStore => NOT_ASTORE,
        Item::BadRow => BAD_ROW,
        Item::IdsCollide => IDS_COLLIDE,
        Item::Places => PLACES,
        Item::Memory => MEMORY,
        Item::Reader => READER,
        further => text_of_further(further),
    }
}
