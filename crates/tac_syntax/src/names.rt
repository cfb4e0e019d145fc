//! Names, and names of files.

ghost use Rattle.std.specs.Prelude.{◌≡◌};
ghost use Rattle.tac_syntax.specs.Names.{all_bytes};
ghost use Rattle.tac_syntax.specs.Names as specs;

/// The most bytes that a name can have.
pub const MAX_NAME: usize = 32;

/// The most bytes that a file's name can have.
pub const MAX_FILE_NAME: usize = 200;

fn is_name_byte(byte: u8) -> bool
    ensures { result ≡ specs.is_name_byte byte }
{
    byte.is_ascii_lowercase() || byte.is_ascii_digit() || byte == b'_'
}

fn are_name_bytes(bytes: &[u8]) -> bool
    ensures { result ≡ all_bytes specs.is_name_byte bytes.now }
{
    for byte in bytes {
        if !is_name_byte(*byte) {
            return false;
        }
    }
    true
}

/// Whether the bytes are a name: a small letter, then small letters, digits and underscores.
pub fn is_name(bytes: &[u8]) -> bool
    ensures { result ≡ specs.is_name bytes.now }
{
    match bytes {
        [first, others @ ..] => first.is_ascii_lowercase()
            && are_name_bytes(others)
            && bytes.len() <= MAX_NAME,
        [] => false,
    }
}

fn is_file_byte(byte: u8) -> bool
    ensures { result ≡ specs.is_file_byte byte }
{
    byte.is_ascii_lowercase()
        || byte.is_ascii_uppercase()
        || byte.is_ascii_digit()
        || byte == b'.'
        || byte == b'_'
        || byte == b'-'
        || byte == b'/'
}

fn are_file_bytes(bytes: &[u8]) -> bool
    ensures { result ≡ all_bytes specs.is_file_byte bytes.now }
{
    for byte in bytes {
        if !is_file_byte(*byte) {
            return false;
        }
    }
    true
}

/// Whether the bytes are a file's name: letters, digits, full stops, underscores, hyphens, slashes.
pub fn is_file_name(bytes: &[u8]) -> bool
    ensures { result ≡ specs.is_file_name bytes.now }
{
    !bytes.is_empty() && bytes.len() <= MAX_FILE_NAME && are_file_bytes(bytes)
}
