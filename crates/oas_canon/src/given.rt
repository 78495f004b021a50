//! What becomes of a file that was read: its canonical bytes, which it has itself where they were canonical.
ghost use Rattle.std.specs.Prelude.{◌≡◌, ◌↔◌, IsTrue, IfOk, IfErr};
ghost use Rattle.sha2.specs.Sha256.{sha256};
ghost use Rattle.oas_num.specs.Written.{IsWritten, IsCutOff};
ghost use Rattle.oas_canon.specs.Given.{form_of, AreAlike};

use crate::cell_keys::layout_key;
use crate::hashing::Hasher;
use oas_judge::{Given, has_canonical_bytes, write_canonical};
use oas_num::{Content, Device, Refusal, Sink, SinkFault, write_content};

/// All bytes of a file.
#[derive(Clone, Copy)]
struct FileBytes<'a> {
    bytes: &'a [u8],
}

impl<'a> Content for FileBytes<'a> {
    ghost bytes = { λ f. f.bytes.now };

    fn put_into<K: Sink>(&self, sink: &mut K) -> Result<(), SinkFault> {
        sink.put_all(self.bytes)
    }
}

/// Writes the canonical file of what was read, and returns how many bytes it has.
pub fn write_given<W: Device>(given: &Given, writer: &mut W) -> Result<u64, Refusal>
    ensures written { IfOk result (IsWritten W.calls writer.old (form_of given.now) writer.new) }
    ensures refused { IfErr result (IsCutOff W.calls writer.old (form_of given.now) writer.new) }
{
    match given {
        Given::Canonical(bytes) => write_content(&FileBytes { bytes }, writer),
        Given::Layout(layout) => write_canonical(layout, writer),
    }
}

/// The SHA-256 of these bytes.
fn bytes_key(bytes: &[u8]) -> [u8; 32]
    ensures { result ≡ sha256 bytes.now }
{
    let mut hasher = Hasher::new();
    let _ = hasher.put_all(bytes);
    hasher.finish()
}

/// The key of what was read: the SHA-256 of its canonical file.
pub fn given_key(given: &Given) -> [u8; 32]
    ensures { result ≡ sha256 (form_of given.now) }
{
    match given {
        Given::Canonical(bytes) => bytes_key(bytes),
        Given::Layout(layout) => layout_key(layout),
    }
}

/// Whether two files that were read have one canonical file.
pub(crate) fn have_one_form(one: &Given, other: &Given) -> bool
    requires { AreAlike one.now other.now }
    ensures { IsTrue result ↔ (form_of one.now ≡ form_of other.now) }
{
    match (one, other) {
        (Given::Canonical(first), Given::Canonical(second)) => first == second,
        (Given::Canonical(bytes), Given::Layout(layout))
        | (Given::Layout(layout), Given::Canonical(bytes)) => has_canonical_bytes(layout, bytes),
        (Given::Layout(first), Given::Layout(second)) => first.same(second),
    }
}
