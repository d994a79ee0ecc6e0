//! Names that stand in the file.

ghost use Rattle.std.specs.Prelude.{◌≡◌, slice_range};

/// What stands in the file from a place up to another.
pub fn text_at(file: &[u8], start: u32, end: u32) -> &[u8]
    ensures { result.now ≡ slice_range file.now start end }
{
    let (start, end) = (start as usize, (end as usize).min(file.len()));
    if start < end { &file[start..end] } else { &[] }
}
