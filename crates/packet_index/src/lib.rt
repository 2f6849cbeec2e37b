// What a search of an index tells; the index, its search and its making are definitions and laws.
#![tactic(auto)]

// Whether the entry is found, how many entries come before the place where it stands or would stand, and how many
// were compared.
#[derive(Clone, Copy)]
pub struct Searched {
    pub found: bool,
    pub place: usize,
    pub compared: usize,
}
