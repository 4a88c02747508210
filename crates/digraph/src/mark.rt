// The state of a node in a search.
ghost use Rattle.std.specs.Prelude.{◌≡◌};
ghost use Rattle.digraph.specs.Searching.{is_done_mark, is_new_mark, is_open_mark};

/// The state of a node in a depth-first search.
#[derive(Clone, Copy)]
pub enum Mark {
    /// Not visited yet.
    New,
    /// On the current path.
    Open,
    /// Left: all nodes that it leads to are done too.
    Done,
}

impl Mark {
    /// Returns whether the mark is `New`.
    pub fn is_new(self) -> bool
        ensures { result ≡ is_new_mark self }
    {
        matches!(self, Mark::New)
    }

    /// Returns whether the mark is `Open`.
    pub fn is_open(self) -> bool
        ensures { result ≡ is_open_mark self }
    {
        matches!(self, Mark::Open)
    }

    /// Returns whether the mark is `Done`.
    pub fn is_done(self) -> bool
        ensures { result ≡ is_done_mark self }
    {
        matches!(self, Mark::Done)
    }
}
