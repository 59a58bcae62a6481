// A set of settings as it comes, lawful or not.

/// Eleven words, one for each setting.
// A public field and no view of it, though clauses name it: whoever has eleven words may write them.
#[derive(Clone, Copy, PartialEq, Eq, Debug)]
pub struct Settings {
    pub words: [u16; 11],
}

/// The fail code of the first check that a set does not pass.
// A number and no enum: it is what a register shows, and nothing asks which check it belongs to.
#[derive(Clone, Copy, PartialEq, Eq, Debug)]
pub struct Unlawful {
    pub code: u16,
}
