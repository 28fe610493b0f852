// What a reader of a line holds. Kept apart from the functions that speak of it in their contracts.
ghost use Rattle.std.specs.Prelude.{◌+◌, ◌^◌, ◌<◌, length};

/// What is left of a line, and the place in the text where it begins.
#[derive(Clone, Copy, Debug, PartialEq, Eq)]
pub struct Cursor<'a> {
    pub bytes: &'a [u8],
    pub place: usize,
    ghost fits: { place + length bytes.now < 2 ^ 63 },
}
