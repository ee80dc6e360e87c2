//! A worked session as it stands in a file.

/// `=== NAME`, the script, a line `---`, and what it prints. A name that ends in `, turns N` says how many turns each
/// sentence has.
#[derive(Drop)]
pub struct Case<'a> {
    pub name: &'a str,
    pub script: &'a str,
    pub prints: &'a str,
}

impl<'a> Case<'a> {
    /// The session that a piece of a file tells of, from its name on.
    pub fn of(piece: &'a str) -> Case<'a> {
        let (head, prints) = piece.split_once("\n---\n").unwrap_or((piece, ""));
        let (name, script) = head.split_once("\n").unwrap_or((head, ""));
        Case {
            name,
            script,
            prints,
        }
    }

    /// How many turns each sentence has.
    pub fn turns(&self) -> u64 {
        match self.name.rsplit_once(", turns ") {
            Some((_, number)) => number.parse().unwrap_or(0),
            None => 10_000_000,
        }
    }
}
