// The run's scratch: six areas of n words each, named by what they hold while levels are combined; the memory table of docs/ARCHITECTURE.md
// has what each holds at other times. FIRST, levels rooted at v by old number, begins at word 0 and QUEUE, the nodes as a search meets
// them, at word n; so these two need no number here. Area A of the others begins at word A * n.

// Levels rooted at u, by old number.
pub const SECOND: usize = 2;

// Combined levels, by old number.
pub const MERGED: usize = 3;

// The members of the parts, part after part.
pub const MEMBERS: usize = 4;

// The starts of the pieces, and from the end down the counts of the levels.
pub const TALLY: usize = 5;

// How many areas there are.
pub const AREAS: usize = 6;
