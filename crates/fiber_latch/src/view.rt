//! Ghost types: what a seat knows. They exist only in contracts.
use dt_model::{Entry, World};
use std::collections::LinkedList;

/// The seat's mark on a latch that it lists.
pub enum Mark {
    /// Listed at the opening, and its empty slot isn't taken out yet.
    Opened,
    /// Taken, and its pass isn't absorbed yet.
    Taken,
    /// Held, and everything that touches it was seen.
    Kept,
    /// Its new pass was cut off, with these entries, and it isn't given back yet.
    Parted(LinkedList<Entry>),
}

/// A latch that the seat lists, and the session for which it is held.
pub struct Hold {
    /// The latch, from 0.
    pub latch: u64,
    /// The session, from 1.
    pub session: u64,
    /// How far the take or the give of the latch is.
    pub mark: Mark,
}

/// A view that was joined into another, a latch's pass, or a seat of the sessions first to last.
pub enum Role {
    /// Joined into another.
    Spent,
    /// The pass of this latch.
    Pass(u64),
    /// A seat of the sessions from the first to the last.
    Sessions(u64, u64),
}

/// The seat's last join: what each side had seen, and both roles.
pub struct JoinRecord {
    /// What the seat had seen.
    pub mine: LinkedList<Entry>,
    /// The seat's role before.
    pub was: Role,
    /// What the other had seen.
    pub theirs: LinkedList<Entry>,
    /// The other's role.
    pub other: Role,
}

/// The fields of a `TableId`, as data.
pub struct TableName {
    pub words: u64,
    pub slots: u64,
    pub views_name: u64,
    pub atom: u64,
    pub block: u64,
    pub offset: u64,
    pub slot_names: LinkedList<u64>,
}

/// What the table was opened for.
pub struct TableConfig {
    /// The declarations, and what is loaded.
    pub world: World,
    /// The number of the journal's latch.
    pub end: u64,
    /// Sessions 1 to this one.
    pub sessions: u64,
    /// How many calls each session has at most.
    pub calls: u64,
}

/// What a seat or a pass knows.
pub struct View {
    /// What it is a view of.
    pub role: Role,
    /// What the table was opened for.
    pub config: TableConfig,
    /// Until the first seat has learned which table it is.
    pub fresh: bool,
    /// The entries that it has seen, oldest first.
    pub seen: LinkedList<Entry>,
    /// The latches that it lists, the greatest first.
    pub held: LinkedList<Hold>,
    /// The latch and the holder that each failed take found.
    pub conflicts: LinkedList<(u64, u64)>,
    /// Its last join, until a word was read.
    pub last_join: Option<JoinRecord>,
    /// Its table's name.
    pub table: TableName,
}
