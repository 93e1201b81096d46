// The rows of a forest, four words a node: its parent, and for each of three sides a part or none.
ghost use Rattle.std.specs.Prelude.{◌≡◌, ◌<◌, ◌≤◌};
ghost use Rattle.forest.specs.Rows.{IsNode, Rows, SameForest, parent, remembered, root};

// The parent of a node.
pub(crate) fn parent_of(rows: &[u32], i: usize) -> usize
    requires { IsNode rows.now i }
    ensures { result ≡ parent rows.now i }
{
    rows[4 * i] as usize
}

// The part that a node remembers for a side, or none.
pub fn part_of(rows: &[u32], i: usize, side: usize) -> Option<usize>
    requires node { IsNode rows.now i }
    requires sides { side < 3 }
    ensures { result ≡ remembered rows.now i side }
{
    (rows[4 * i + 1 + side] as usize).checked_sub(1)
}

// The root of a node, the lowest of its class.
pub fn find(rows: &[u32], i: usize) -> usize
    requires rows { Rows rows.now }
    requires node { IsNode rows.now i }
    ensures root { result ≡ root rows.now i }
    ensures within { result ≤ i }
{
    let mut node = i;
    while parent_of(rows, node) != node {
        node = parent_of(rows, node);
    }
    node
}

// Shortens the way from a node to its root, by making the parent of each second node on it that of its parent.
pub fn shorten(rows: &mut [u32], i: usize)
    requires rows { Rows rows.old }
    requires node { IsNode rows.old i }
    ensures { SameForest rows.old rows.new }
{
    let mut node = i;
    while parent_of(rows, node) != node {
        let above = rows[4 * parent_of(rows, node)];
        rows[4 * node] = above;
        node = above as usize;
    }
}
