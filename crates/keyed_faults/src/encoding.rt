//! What the first bytes of a file say of it, where it is no text of one byte after the other, or a text that is no CSV.
ghost use Rattle.std.specs.Prelude.{◌≡◌, IfSome, Some};
ghost use Rattle.keyed_faults.specs.Encodings.{encoding_of};

/// What a file is that has to be turned into a text of CSV first.
#[derive(Clone, Copy, Debug, PartialEq, Eq)]
pub enum Encoding {
    Gzip,
    Zstd,
    Utf16,
    Sqlite,
    Json,
}

// What a file of SQLite begins with.
const SQLITE: &[u8] = b"SQLite format 3\0";

// What a text of JSON begins with that has objects, arrays or names.
const JSON: [&[u8]; 14] = [
    b"{\"", b"{ \"", b"{\n", b"{\r\n", b"{}", b"[{", b"[ {", b"[\"", b"[ \"", b"[\n", b"[\r\n",
    b"[[", b"[ [", b"[]",
];

impl Encoding {
    /// How many bytes at the start of a file tell what it is.
    pub const TELLING: usize = 16;

    /// What a file is that begins with these bytes, if they are those of an encoding.
    pub fn of(first: &[u8]) -> Option<Self>
        ensures { result ≡ encoding_of first.now }
    {
        if first.starts_with(b"\x1F\x8B\x08") {
            Some(Encoding::Gzip)
        } else if first.starts_with(b"\x28\xB5\x2F\xFD") {
            Some(Encoding::Zstd)
        } else if first.starts_with(b"\xFF\xFE") || first.starts_with(b"\xFE\xFF") {
            Some(Encoding::Utf16)
        } else {
            None
        }
    }

    /// What a file is that is to be read and begins with these bytes, also where it is a text that is no CSV.
    pub fn of_file(first: &[u8]) -> Option<Self>
        ensures { IfSome (encoding_of first.now) (λ encoding. result ≡ Some encoding) }
    {
        match Encoding::of(first) {
            Some(encoding) => Some(encoding),
            None => other_format(first),
        }
    }

    /// Its name.
    pub fn name(self) -> &'static str {
        match self {
            Encoding::Gzip => "gzip",
            Encoding::Zstd => "zstd",
            Encoding::Utf16 => "UTF-16",
            Encoding::Sqlite => "an SQLite file",
            Encoding::Json => "JSON",
        }
    }

    /// The command that writes the text of the file which is named next.
    pub fn remedy(self) -> &'static str {
        match self {
            Encoding::Gzip => "zcat",
            Encoding::Zstd => "zstdcat",
            Encoding::Utf16 => "iconv -f UTF-16 -t UTF-8",
            Encoding::Sqlite => "sqlite3 -header -csv",
            Encoding::Json => "mlr --ijson --ocsv cat",
        }
    }

    /// What stands after the name of the file in this command.
    pub fn rest_of_remedy(self) -> &'static str {
        match self {
            Encoding::Gzip | Encoding::Zstd | Encoding::Utf16 | Encoding::Json => "",
            Encoding::Sqlite => " 'SELECT * FROM TABLE'",
        }
    }
}

// What a file is that is no table in CSV, though it may be a text.
fn other_format(first: &[u8]) -> Option<Encoding> {
    if first.starts_with(SQLITE) {
        Some(Encoding::Sqlite)
    } else if JSON.iter().any(|start| first.starts_with(start)) {
        Some(Encoding::Json)
    } else {
        None
    }
}
