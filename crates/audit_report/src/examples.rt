// Worked examples of what is meant, computed by the check: a definition that changes one is refused.
ghost use Rattle.std.specs.Prelude.{◌≡◌, IsTrue};
ghost use Rattle.destination_json.specs.Json.{is_json};
ghost use Rattle.audit_report.specs.Figures.{figures_text};
ghost use Rattle.audit_report.specs.Examples.{used, used_text, fresh, fresh_text};

/// Known lines.
pub fn lines()
    // claim: The prover computes known lines, which are JSON. [: used_is_json]
    ensures used { figures_text used ≡ used_text }
    ensures used_is_json { IsTrue (is_json used_text) }
    ensures fresh { figures_text fresh ≡ fresh_text }
    ensures fresh_is_json { IsTrue (is_json fresh_text) }
{}
