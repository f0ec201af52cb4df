ghost use Rattle.std.specs.Prelude.{◌≡◌, IsTrue, IsOk, IfOk};

use std::alloc::{AllocError, Global};
use std::marker::Model;

/// Bytes that are borrowed until the first change, and owned from then on.
#[derive(Debug, Drop)]
pub struct ByteString<'data> {
    source: &'data [u8],
    copy: Option<Vec<u8>>,
}

impl<'data> Model for ByteString<'data> {
    ghost use Rattle.patch_bytes.specs.ByteString.{StringValue, string_model};

    ghost Value = { StringValue };

    ghost view = { λ s. string_model s.source.now s.copy };
}

impl<'data> ByteString<'data> {
    ghost use Rattle.std.specs.Borrow.{sem};
    ghost use Rattle.patch_bytes.specs.ByteString.{borrowed_string, owned_string};
    ghost use Rattle.patch_bytes.specs.Lending.{LendsBytes};

    /// Bytes that stay where they are. Takes no memory.
    pub fn borrowed(bytes: &'data [u8]) -> Self
        ensures { result ≡ borrowed_string bytes.entry.now }
    {
        ByteString {
            source: bytes,
            copy: None,
        }
    }

    /// Bytes that the string owns. Takes no memory.
    pub fn owned(bytes: Vec<u8>) -> Self
        ensures { result ≡ owned_string bytes.items }
    {
        ByteString {
            source: &[],
            copy: Some(bytes),
        }
    }

    /// The bytes. Takes no memory.
    pub fn as_slice(&self) -> &[u8]
        ensures { result.now ≡ self.now.bytes }
    {
        match &self.copy {
            None => self.source,
            Some(bytes) => bytes.as_slice(),
        }
    }

    /// Whether the string owns its bytes. Takes no memory.
    pub fn is_owned(&self) -> bool
        ensures { result ≡ self.now.is_owned }
    {
        self.copy.is_some()
    }

    /// The bytes to change: the first such call copies borrowed bytes, and is refused where there is no
    /// memory for that.
    pub fn to_mut(&mut self, alloc: Global) -> Result<&mut Vec<u8>, AllocError>
        ensures* lends { sem 𝓛 (LendsBytes self.entry result) }
        ensures value { IfOk result (λ bytes. bytes.now.items ≡ self.old.bytes) }
        ensures owned { IsTrue self.old.is_owned → IsOk result }
    {
        let copy = match self.copy.take() {
            Some(copy) => copy,
            None => Vec::from_slice(alloc, self.source)?,
        };
        Ok(self.copy.insert(copy))
    }

    /// A copy of the bytes: borrowed ones are lent again, owned ones copied.
    pub fn try_clone(&self, alloc: Global) -> Result<ByteString<'data>, AllocError>
        ensures { IfOk result (λ copy. copy ≡ self.now) }
    {
        let copy = match &self.copy {
            None => None,
            Some(bytes) => Some(Vec::from_slice(alloc, bytes.as_slice())?),
        };
        Ok(ByteString {
            source: self.source,
            copy,
        })
    }
}
