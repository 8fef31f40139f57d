//! What packed the bytes that `import` takes for BSON.

ghost use Rattle.std.specs.Prelude.{◌≡◌, ◌↔◌, Some};
ghost use Rattle.fallowtime_words.specs.Commands.{BeginsWith};
ghost use Rattle.fallowtime_words.specs.Advice.{archive_front, bzip2_front, gzip_front, xz_front, zip_front, zstd_front};
ghost use Rattle.fallowtime_words.specs.declared.packing.Packing.TheVariants.{Archive, Bzip2, Gzip, Xz, Zip, Zstd};

/// What packs documents.
#[derive(Clone, Copy, Debug, PartialEq, Eq)]
pub enum Packing {
    /// gzip, as `mongodump --gzip` calls it.
    Gzip,
    /// `mongodump --archive`.
    Archive,
    /// zip.
    Zip,
    /// zstd.
    Zstd,
    /// bzip2.
    Bzip2,
    /// xz.
    Xz,
}

/// What packed these bytes, if the first of them say so.
pub fn packing_of(bytes: &[u8]) -> Option<Packing>
    ensures gzip { (result ≡ Some Gzip) ↔ BeginsWith gzip_front bytes.now }
    ensures archive { (result ≡ Some Archive) ↔ BeginsWith archive_front bytes.now }
    ensures zip { (result ≡ Some Zip) ↔ BeginsWith zip_front bytes.now }
    ensures zstd { (result ≡ Some Zstd) ↔ BeginsWith zstd_front bytes.now }
    ensures bzip2 { (result ≡ Some Bzip2) ↔ BeginsWith bzip2_front bytes.now }
    ensures xz { (result ≡ Some Xz) ↔ BeginsWith xz_front bytes.now }
{
    Some(if bytes.starts_with(&[31, 139, 8]) {
        Packing::Gzip
    } else if bytes.starts_with(&[109, 226, 153, 129]) {
        Packing::Archive
    } else if bytes.starts_with(&[80, 75, 3, 4]) {
        Packing::Zip
    } else if bytes.starts_with(&[40, 181, 47, 253]) {
        Packing::Zstd
    } else if bytes.starts_with(&[66, 90, 104]) {
        Packing::Bzip2
    } else if bytes.starts_with(&[253, 55, 122, 88, 90, 0]) {
        Packing::Xz
    } else {
        return None;
    })
}

/// Whether a refusal of this kind says that bytes are no BSON.
fn is_of_bytes(kind: &str) -> bool {
    matches!(kind, "EndInside" | "BadLength" | "NotTerminated" | "Faulty")
}

/// What helps after a refusal of this kind if the bytes were packed so, in a line; none if they may be BSON.
pub fn advice_on_packed(kind: &str, packing: Option<Packing>) -> Option<&'static str> {
    if !is_of_bytes(kind) {
        return None;
    }
    match packing? {
        Packing::Gzip => {
            Some("these bytes are packed by gzip: gunzip -c PACKED | fallowtime FILE import COLL")
        }
        Packing::Archive => {
            Some(
                "this is an archive of mongodump: without --archive it makes a folder, for import-all",
            )
        }
        Packing::Zip => {
            Some("these bytes are packed by zip: unzip -p PACKED | fallowtime FILE import COLL")
        }
        Packing::Zstd => {
            Some("these bytes are packed by zstd: zstd -dc PACKED | fallowtime FILE import COLL")
        }
        Packing::Bzip2 => {
            Some("these bytes are packed by bzip2: bunzip2 -c PACKED | fallowtime FILE import COLL")
        }
        Packing::Xz => {
            Some("these bytes are packed by xz: xz -dc PACKED | fallowtime FILE import COLL")
        }
    }
}
