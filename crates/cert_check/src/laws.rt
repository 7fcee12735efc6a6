//! What a verdict leaves open. The function does nothing: its contract is the law.
ghost use Rattle.std.specs.Prelude.{◌≡◌, ◌↔◌, List, Option};
ghost use Rattle.geo_rect.specs.declared.ids.Spot.{Spot};
ghost use Rattle.board_model.specs.declared.made.Conn.{Conn};
ghost use Rattle.board_parts.specs.declared.parts.BoardParts.{BoardParts};
ghost use Rattle.route_law.specs.declared.certs.Cert.{Cert};
ghost use Rattle.route_law.specs.Ground.{Ground};
ghost use Rattle.cert_check.specs.declared.verdicts.Verdict.{Verdict};
ghost use Rattle.cert_check.specs.declared.verdicts.Verdict.TheVariants.{Yes};
ghost use Rattle.cert_check.specs.Verdicts.{IsGood, IsVerdict};

/// A verdict is yes exactly where the certificate is right and the connection matches its bound.
pub fn a_verdict_is_yes_exactly_where_all_is_right()
    ensures { (b : BoardParts) (g : Ground) (sources targets : List Spot) (conn : Option Conn) (cert : Cert) (v : Verdict)
        → IsVerdict b g sources targets conn cert v → (v ≡ Yes) ↔ IsGood b g sources targets conn cert }
{}
