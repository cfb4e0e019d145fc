use pact_record::Bytes;

/// A file's name and its contents.
#[derive(Debug, Drop)]
pub struct NamedFile {
    pub name: Bytes,
    pub bytes: Bytes,
}
