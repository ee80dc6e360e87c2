/// Which further lines a sentence takes.
#[derive(Clone, Copy, Debug, PartialEq, Eq)]
pub enum Need {
    Nothing,
    /// The lines of so many bodies, each up to a line of `)` alone.
    Lines { bodies: u32 },
    /// The lines up to the `}}` that closes the first of the `{{` that are open, which are so many.
    Brace { depth: u32 },
}
