// A line of a script as it stands there.

/// Its number, counted from 1, and its text, which may be any octets at all.
#[derive(Clone, Copy)]
pub struct Source<'a> {
    pub number: usize,
    pub text: &'a [u8],
}
