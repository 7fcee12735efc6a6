//! That nothing which is made breaks a rule. The function does nothing: its contract is the law.
ghost use Rattle.std.specs.Prelude.{List, Contains};
ghost use Rattle.board_model.specs.declared.made.Conn.{Conn};
ghost use Rattle.board_parts.specs.declared.parts.BoardParts.{BoardParts};
ghost use Rattle.board_model.specs.declared.shapes.Shape.{Shape};
ghost use Rattle.board_model.specs.declared.shapes.Violation.{Violation};
ghost use Rattle.board_parts.specs.Rules.{IsBoard};
ghost use Rattle.board_model.specs.Shapes.{made_shapes, state_shapes};
ghost use Rattle.board_model.specs.Violations.{violations_of};
ghost use Rattle.route_law.specs.Kept.{IsState};
ghost use Rattle.step_laws.specs.Broken.{IsNamed};

/// In a state that keeps the rules, no violation names a shape of a connection: all that it names
/// are blockages and pins of the board.
pub fn what_is_made_breaks_no_rule()
    ensures { (b : BoardParts) (lists : List (List Conn)) (v : Violation) (s : Shape) → IsBoard b → IsState b lists
        → Contains (violations_of b (state_shapes b lists)) v → Contains (made_shapes b 0 lists) s → IsNamed v s → ⊥ }
{}
