//! A law of the definitions: nothing is computed here.
ghost use Rattle.std.specs.Prelude.{◌≢◌, ◌++◌, ℕ, List, []};
ghost use Rattle.cert_lines.specs.declared.kind.Version.{Version as AVersion};
ghost use Rattle.cert_lines.specs.Grammar.{Line, IsText};

/// No proper front of a text of lines is one.
pub fn no_lines_within()
    ensures { (v w : AVersion) (lines others : List Line) (bytes more : List ℕ) → more ≢ [] → IsText bytes v lines
        → IsText (bytes ++ more) w others → ⊥ }
{}
