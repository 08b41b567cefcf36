//! Where the name of a member lies.
ghost use Rattle.std.specs.Prelude.{◌≡◌, ◌≢◌, ◌-◌, ◌≤◌, false, length};
ghost use Rattle.city_json.specs.MemberName.{name_bytes, IsWithin};

/// The place of a name, in bytes: in the text, where it ends before the text does; else among the names that are held,
/// whose places go on from the text's end.
#[derive(Clone, Copy, Debug)]
pub(super) struct Name {
    pub(super) from: u32,
    pub(super) end: u32,
}

impl Name {
    /// The bytes of the decoded name.
    #[inline(always)]
    pub(super) fn bytes<'b>(&self, text: &'b [u8], held: &'b [u8]) -> &'b [u8]
        requires { IsWithin (length text.now) (length held.now) self.now }
        ensures { result.now ≡ name_bytes text.now held.now self.now }
    {
        let (from, end) = (self.from as usize, self.end as usize);
        if end < text.len() {
            &text[from..end]
        } else {
            &held[from - text.len()..end - text.len()]
        }
    }

    /// Whether the decoded name has these bytes. Most names that differ have different lengths.
    #[inline(always)]
    pub(super) fn has_bytes(&self, bytes: &[u8], text: &[u8], held: &[u8]) -> bool
        requires { IsWithin (length text.now) (length held.now) self.now }
        ensures { result ≡ false → name_bytes text.now held.now self.now ≢ bytes.now }
    {
        if (self.end - self.from) as usize != bytes.len() {
            return false;
        }
        self.bytes(text, held) == bytes
    }
}
