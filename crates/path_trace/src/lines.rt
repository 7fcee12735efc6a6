//! Nodes in one line.

ghost use Rattle.std.specs.Prelude.{◌≡◌, ◌↔◌, IsTrue};
ghost use Rattle.board_model.specs.Shapes.{place_of};
ghost use Rattle.path_trace.specs.Lines.{IsPassed, RunsAcross, RunsUp, GoesOn};

use geo_rect::Node;

/// Whether the column of `v` is one of those from that of `u` to that of `w`.
fn passes_across(u: Node, v: Node, w: Node) -> bool
    ensures { IsTrue result ↔ IsPassed u.x v.x w.x }
{
    if u.x < v.x {
        return v.x <= w.x;
    }
    if v.x < u.x {
        return w.x <= v.x;
    }
    true
}

/// Whether the row of `v` is one of those from that of `u` to that of `w`.
fn passes_up(u: Node, v: Node, w: Node) -> bool
    ensures { IsTrue result ↔ IsPassed u.y v.y w.y }
{
    if u.y < v.y {
        return v.y <= w.y;
    }
    if v.y < u.y {
        return w.y <= v.y;
    }
    true
}

/// Whether the nodes are in one row.
fn is_one_row(u: Node, v: Node) -> bool
    ensures { IsTrue result ↔ (u.y ≡ v.y) }
{
    u.y == v.y
}

/// Whether the nodes are in one column.
fn is_one_column(u: Node, v: Node) -> bool
    ensures { IsTrue result ↔ (u.x ≡ v.x) }
{
    u.x == v.x
}

/// Whether the nodes are in one row, `v` between the other two or at one of them.
fn runs_across(u: Node, v: Node, w: Node) -> bool
    ensures { IsTrue result ↔ RunsAcross u v w }
{
    if !is_one_row(u, v) {
        return false;
    }
    if !is_one_row(v, w) {
        return false;
    }
    passes_across(u, v, w)
}

/// Whether the nodes are in one column, `v` between the other two or at one of them.
fn runs_up(u: Node, v: Node, w: Node) -> bool
    ensures { IsTrue result ↔ RunsUp u v w }
{
    if !is_one_column(u, v) {
        return false;
    }
    if !is_one_column(v, w) {
        return false;
    }
    passes_up(u, v, w)
}

/// Whether a wire from `v` to `w` goes on in the direction of one from `u` to `v`.
pub fn goes_on(u: Node, v: Node, w: Node) -> bool
    ensures { IsTrue result ↔ GoesOn u v w }
{
    if runs_across(u, v, w) {
        return true;
    }
    runs_up(u, v, w)
}

/// Whether the nodes have the same x and y.
pub fn is_one_place(u: Node, v: Node) -> bool
    ensures { IsTrue result ↔ (place_of u ≡ place_of v) }
{
    if u.x != v.x {
        return false;
    }
    u.y == v.y
}
