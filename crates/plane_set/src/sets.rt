ghost use Rattle.std.specs.Prelude.{◌≡◌, ◌<◌, ◌∷◌, ◌++◌, [], List, length, All, IfOk, IsSome, Some, slice_get, slice_index_or};
ghost use Rattle.board_model.specs.declared.shapes.Shape.{Shape as OneShape};
ghost use Rattle.board_parts.specs.declared.parts.BoardParts.{BoardParts};
ghost use Rattle.board_model.specs.Labels.{wire_plane, via_plane};
ghost use Rattle.board_model.specs.Known.{IsKnown};
ghost use Rattle.board_model.specs.Shapes.{board_shapes};
ghost use Rattle.plane_set.specs.Drawings.{drawing_by, Shows};
ghost use Rattle.plane_set.specs.Relabelled.{AreRelabelled, BeginWithBoard};
ghost use Rattle.plane_set.specs.Standing.{HasPlanes, StandsFor};

use crate::adds::add_to_rows;
use crate::builds::build_rows;
use crate::families::Family;
use crate::rests::rest_in_rows;
use board_model::{Board, Made, Shape, all_shapes};
use geo_rect::{ClassId, KindId, LayerId, NoMemory};
use plane_core::Plane;
use std::alloc::Global;
use std::marker::Model;

/// The planes of a state: for each layer and class that of the class's wires on the layer, and for
/// each kind of via and class that of the class's vias of the kind.
#[derive(Drop)]
pub struct PlaneSet<P: Plane> {
    wires: Vec<Vec<P>>,
    vias: Vec<Vec<P>>,
}

impl<P: Plane> Model for PlaneSet<P> {
    ghost use Rattle.std.specs.Prelude.{vec_items};
    ghost use Rattle.plane_set.specs.Standing.{PlaneTable};
    ghost use Rattle.plane_set.specs.Drawings.{drawing_by, drawn_rows};

    ghost Value = { PlaneTable };

    ghost view = { λ set. record {
      wires = drawn_rows vec_items (drawing_by P.region P.strips) set.wires.items;
      vias = drawn_rows vec_items (drawing_by P.region P.strips) set.vias.items;
    } };
}

impl<P: Plane> PlaneSet<P> {
    /// The planes of these shapes, each of which is one that may stand on the board.
    pub fn of(alloc: Global, board: &Board, shapes: &[Shape]) -> Result<PlaneSet<P>, NoMemory>
        requires { All (IsKnown board.now.parts) shapes.now }
        ensures { IfOk result (λ set. StandsFor board.now.parts shapes.now set) }
    {
        let wires = build_rows(alloc, board, Family::Wires, shapes)?;
        let vias = build_rows(alloc, board, Family::Vias, shapes)?;
        Ok(PlaneSet { wires, vias })
    }

    /// The planes of the board alone: of its blockages and its pins.
    pub fn build(alloc: Global, board: &Board) -> Result<PlaneSet<P>, NoMemory>
        ensures { IfOk result (λ set. StandsFor board.now.parts (board_shapes board.now.parts) set) }
    {
        let made = Made::none(alloc, board)?;
        let shapes = all_shapes(alloc, board, &made)?;
        PlaneSet::of(alloc, board, shapes.as_slice())
    }

    /// The planes with one more shape, which is one that may stand on the board. After `NoMemory` the
    /// planes are gone.
    pub fn add(self, alloc: Global, board: &Board, s: &Shape) -> Result<PlaneSet<P>, NoMemory>
        requires planes { HasPlanes board.now.parts self }
        requires known { IsKnown board.now.parts s.now }
        ensures planes { IfOk result (λ set. HasPlanes board.now.parts set) }
        ensures shapes { IfOk result (λ set. (shapes : List OneShape)
            → StandsFor board.now.parts shapes self
            → StandsFor board.now.parts (shapes ++ s.now ∷ []) set) }
    {
        let PlaneSet { wires, vias } = self;
        let wires = add_to_rows(alloc, board, Family::Wires, wires, s)?;
        let vias = add_to_rows(alloc, board, Family::Vias, vias, s)?;
        Ok(PlaneSet { wires, vias })
    }

    /// The planes with each point that lies in the growth of `gone`, a shape of a net, labelled again
    /// over `shapes`, which begin with those of the board; each other point keeps its label. After
    /// `NoMemory` the planes are gone.
    pub fn rest(
        self,
        alloc: Global,
        board: &Board,
        gone: &Shape,
        shapes: &[Shape],
    ) -> Result<PlaneSet<P>, NoMemory>
        requires planes { HasPlanes board.now.parts self }
        requires gone { IsKnown board.now.parts gone.now }
        requires net { IsSome gone.now.owner }
        requires known { All (IsKnown board.now.parts) shapes.now }
        requires board { BeginWithBoard board.now.parts shapes.now }
        ensures planes { IfOk result (λ set. HasPlanes board.now.parts set) }
        ensures labels { IfOk result (λ set. AreRelabelled board.now.parts gone.now shapes.now self set) }
    {
        let PlaneSet { wires, vias } = self;
        let wires = rest_in_rows(alloc, board, Family::Wires, wires, gone, shapes)?;
        let vias = rest_in_rows(alloc, board, Family::Vias, vias, gone, shapes)?;
        Ok(PlaneSet { wires, vias })
    }

    /// The plane of the wires of class `c` on the layer `l`.
    pub fn wire(&self, l: LayerId, c: ClassId) -> &P
        requires layer { l.0 < length self.now.wires }
        requires class { c.0 < length (slice_index_or self.now.wires l.0 []) }
        ensures plane { slice_get (slice_index_or self.now.wires l.0 []) c.0 ≡ Some (drawing_by P.region P.strips result.now) }
        ensures shows { (b : BoardParts) (shapes : List OneShape) → StandsFor b shapes self.now
            → Shows b (wire_plane b l c) shapes (drawing_by P.region P.strips result.now) }
    {
        &self.wires[l.0 as usize][c.0 as usize]
    }

    /// The plane of the vias of kind `k` of class `c`.
    pub fn via(&self, k: KindId, c: ClassId) -> &P
        requires kind { k.0 < length self.now.vias }
        requires class { c.0 < length (slice_index_or self.now.vias k.0 []) }
        ensures plane { slice_get (slice_index_or self.now.vias k.0 []) c.0 ≡ Some (drawing_by P.region P.strips result.now) }
        ensures shows { (b : BoardParts) (shapes : List OneShape) → StandsFor b shapes self.now
            → Shows b (via_plane b k c) shapes (drawing_by P.region P.strips result.now) }
    {
        &self.vias[k.0 as usize][c.0 as usize]
    }
}
