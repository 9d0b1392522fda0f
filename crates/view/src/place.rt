// The bytes at a place of a text that may be absent or outside it.
ghost use Rattle.std.specs.Prelude.{◌≡◌};
ghost use Rattle.view.specs.View.{lies, shown_at};

// Whether a place is present and inside the text.
pub(crate) fn is_shown(text: &[u8], start: i64, length: i64) -> bool
    ensures { result ≡ lies text.now start length }
{
    if start < 0 || length < 0 {
        return false;
    }
    let from = start as usize;
    let len = length as usize;
    from <= text.len() && len <= text.len() - from
}

// The bytes at a place, none where it is absent or outside the text.
pub(crate) fn shown(text: &[u8], start: i64, length: i64) -> &[u8]
    ensures { result.now ≡ shown_at text.now start length }
{
    if start < 0 || length < 0 {
        return &[];
    }
    text::part(text, start as usize, length as usize)
}
