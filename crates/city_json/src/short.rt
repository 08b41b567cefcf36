//! Bytes that lie in the value itself where they are few.
ghost use Rattle.std.specs.Prelude.{◌≡◌, ◌≤◌, IfOk, length, take};

use std::alloc::{AllocError, Global};
use std::fmt;
use std::marker::Model;
use std::mem::size_of;

/// The most bytes that lie in the value itself: with their number and the mark of the form, a value has the size
/// of a `Vec`.
const MAX_INLINE: usize = 22;

const _: () = prove!(size_of::<ShortBytes>() == 24);

#[derive(Drop)]
enum Form {
    Inline { size: u8, bytes: [u8; MAX_INLINE] },
    Heap(Box<Vec<u8>>),
}

/// A list of bytes that never changes.
#[derive(Drop)]
pub(crate) struct ShortBytes {
    form: Form,
}

impl Model for ShortBytes {
    ghost use Rattle.std.specs.Prelude.{List, ℕ};
    ghost use Rattle.city_json.specs.ShortBytes.{form_bytes, IsWithinPlace};

    ghost Value = { List ℕ };

    ghost view = { λ short. form_bytes short.form };

    ghost invariant = { λ short. IsWithinPlace short.form };
}

impl ShortBytes {
    /// A copy of the bytes.
    pub(crate) fn copy_of(alloc: Global, bytes: &[u8]) -> Result<ShortBytes, AllocError>
        ensures { IfOk result (λ copy. copy ≡ bytes.now) }
    {
        if bytes.len() > MAX_INLINE {
            return ShortBytes::on_heap(alloc, bytes);
        }
        let form = Form::Inline {
            size: bytes.len() as u8,
            bytes: first_bytes(bytes),
        };
        Ok(ShortBytes { form })
    }

    fn on_heap(alloc: Global, bytes: &[u8]) -> Result<ShortBytes, AllocError>
        ensures { IfOk result (λ copy. copy ≡ bytes.now) }
    {
        let items = bytes.to_vec(alloc)?;
        let boxed = Box::new(alloc, items)?;
        Ok(ShortBytes {
            form: Form::Heap(boxed),
        })
    }

    pub(crate) fn items(&self) -> &[u8]
        ensures { result.now ≡ self.now }
    {
        match &self.form {
            Form::Inline { size, bytes } => &bytes[..*size as usize],
            Form::Heap(bytes) => bytes.as_slice(),
        }
    }
}

/// The bytes, and then others.
fn first_bytes(bytes: &[u8]) -> [u8; MAX_INLINE]
    requires { length bytes.now ≤ 22 }
    ensures { take (length bytes.now) result ≡ bytes.now }
{
    let mut first = [0; MAX_INLINE];
    first[..bytes.len()].copy_from_slice(bytes);
    first
}

impl fmt::Debug for ShortBytes {
    fn fmt<W: fmt::Write>(&self, f: &mut fmt::Formatter<W>) -> fmt::Result {
        f.debug_list().entries(self.items()).finish()
    }
}
