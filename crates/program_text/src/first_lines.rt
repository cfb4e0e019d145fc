//! The two lines that a program begins with.

ghost use Rattle.std.specs.Prelude.{◌≡◌, ◌<◌, ℕ, Some, Ok, Err, IfErr, IfOk, length};
ghost use Rattle.text_lines.specs.LineReading.{IsFaultOf, IsTold};
ghost use Rattle.tac_syntax.specs.Versions.{IsVersion, field_limit};
ghost use Rattle.program_text.specs.FirstLines.{IsFieldCount, field_count_words, fields_fault, said_version, version_fault, version_words};

use tac_syntax::field_limit;
use text_lines::{Cursor, LineWord, NotRead};

fn version_in(words: &[LineWord]) -> Result<u32, u32>
    requires { 0 < length words.now }
    ensures known { IfOk result IsVersion }
    ensures version { IfOk result (λ version. words.now ≡ said_version version) }
    ensures fault { IfErr result (λ what. version_fault words.now ≡ Some what) }
{
    let mut words = Cursor::new(words);
    if !words.skips(b"pact") {
        return Err(12);
    }
    if words.skips(b"1") {
        if words.left() == 0 {
            return Ok(1);
        }
        return Err(12);
    }
    if words.skips(b"2") && words.left() == 0 {
        return Ok(2);
    }
    Err(12)
}

/// The version in a line `pact 1` or `pact 2`, or the line's fault.
pub fn read_version(words: &[LineWord]) -> Result<u32, u32>
    requires some { 0 < length words.now }
    ensures version { IfOk result (λ version. IsVersion version × (words.now ≡ version_words version)) }
    ensures fault { IfErr result (λ what. version_fault words.now ≡ Some what) }
    ensures version_always { (version : ℕ) → IsVersion version → words.now ≡ version_words version → result ≡ Ok version }
    ensures fault_always { (what : ℕ) → version_fault words.now ≡ Some what → result ≡ Err what }
{
    version_in(words)
}

fn read_fields(version: u32, words: &[LineWord]) -> Result<u32, NotRead>
    requires { 0 < length words.now }
    ensures count { IfOk result (λ count. IsFieldCount version count × (words.now ≡ field_count_words count)) }
    ensures fault { IfErr result (λ e. IsFaultOf e (fields_fault version words.now)) }
    ensures told { IfErr result IsTold }
{
    let mut words = Cursor::new(words);
    if !words.skips(b"fields") {
        return Err(NotRead::Fault { what: 12 });
    }
    let count = words.number(1, field_limit(version))?;
    words.end()?;
    Ok(count)
}

/// The number of fields in a line `fields F` of a program of this version, or the line's first fault.
pub fn read_field_count(version: u32, words: &[LineWord]) -> Result<u32, u32>
    requires some { 0 < length words.now }
    ensures count { IfOk result (λ count. IsFieldCount version count × (words.now ≡ field_count_words count)) }
    ensures fault { IfErr result (λ what. fields_fault version words.now ≡ Some what) }
    ensures count_always { (count : ℕ) → IsFieldCount version count → words.now ≡ field_count_words count → result ≡ Ok count }
    ensures fault_always { (what : ℕ) → fields_fault version words.now ≡ Some what → result ≡ Err what }
{
    match read_fields(version, words) {
        Ok(count) => Ok(count),
        Err(not) => Err(not.told()),
    }
}
