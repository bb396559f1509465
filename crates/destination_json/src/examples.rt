// Worked examples of what is meant, computed by the check: a definition that changes one is refused.
ghost use Rattle.std.specs.Prelude.{◌≡◌, ◌∷◌, [], codes, Some, None};
ghost use Rattle.destination_json.specs.Stamp.{stamp_text};
ghost use Rattle.destination_json.specs.Record.{record_text, record_in, answer_json};
ghost use Rattle.destination_json.specs.Examples.{usual, one_at_once, for_one_minute, no_retries, id};
ghost use Rattle.destination_json.specs.Examples.{grown_old, answered, answered_again, exhausted, timed_out};
ghost use Rattle.destination_json.specs.Examples.{grown_old_text, answered_text, answered_again_text};
ghost use Rattle.destination_json.specs.Examples.{exhausted_text, timed_out_text, failed_then_old_text};
ghost use Rattle.destination_json.specs.Examples.{pushed_back, cut_off, failed, overdue, failed_then_old};

/// Known moments.
pub fn stamps()
    // claim: The prover computes known moments, records and answers. [: leap_day; records: exhausted; answers: too_large]
    ensures first { stamp_text 0 ≡ codes "1970-01-01T00:00:00.000Z" }
    ensures last { stamp_text 253402300799999 ≡ codes "9999-12-31T23:59:59.999Z" }
    ensures accepted { stamp_text 1573755365568 ≡ codes "2019-11-14T18:16:05.568Z" }
    ensures minute_later { stamp_text 1573755425568 ≡ codes "2019-11-14T18:17:05.568Z" }
    ensures leap_day { stamp_text 951782400000 ≡ codes "2000-02-29T00:00:00.000Z" }
    ensures after_leap_day { stamp_text 951868800000 ≡ codes "2000-03-01T00:00:00.000Z" }
    ensures no_leap_day { stamp_text 4107542399999 ≡ codes "2100-02-28T23:59:59.999Z" }
    ensures after_no_leap_day { stamp_text 4107542400000 ≡ codes "2100-03-01T00:00:00.000Z" }
    ensures new_millennium { stamp_text 978307200000 ≡ codes "2001-01-01T00:00:00.000Z" }
    ensures new_year { stamp_text 1609459199999 ≡ codes "2020-12-31T23:59:59.999Z" }
{}

/// Known records: an answer that is JSON is copied, the text of any other is quoted, also that of the empty one.
pub fn records()
    ensures grown_old { record_text usual grown_old ≡ grown_old_text }
    ensures answered { record_text usual (answered (codes "ok")) ≡ answered_text (codes "\"ok\"") }
    ensures empty { record_text usual (answered []) ≡ answered_text (codes "\"\"") }
    ensures not_text { record_text usual (answered (255 ∷ [])) ≡ answered_text (34 ∷ 239 ∷ 191 ∷ 189 ∷ 34 ∷ []) }
    ensures answered_again { record_text usual answered_again ≡ answered_again_text }
    ensures exhausted { record_text usual exhausted ≡ exhausted_text }
    ensures timed_out { record_text usual timed_out ≡ timed_out_text }
{}

/// Known answers as they stand in a record.
pub fn answers()
    ensures empty { answer_json [] ≡ codes "\"\"" }
    ensures not_text { answer_json (255 ∷ []) ≡ 34 ∷ 239 ∷ 191 ∷ 189 ∷ 34 ∷ [] }
    ensures plain { answer_json (codes "ok") ≡ codes "\"ok\"" }
    ensures quoted { answer_json (codes "say \"a\"") ≡ codes "\"say \\\"a\\\"\"" }
    ensures copied { answer_json (codes " [1, 2] ") ≡ codes " [1, 2] " }
    ensures number { answer_json (codes "1e5") ≡ codes "1e5" }
    ensures too_large { answer_json (codes "1e999") ≡ codes "\"1e999\"" }
{}

/// The records of histories.
pub fn histories()
    ensures pushed_back { record_in one_at_once (pushed_back 1573755365568) (id 1) ≡ Some grown_old_text }
    ensures still_running { record_in one_at_once (pushed_back 1573755365568) (id 2) ≡ None }
    ensures cut_off { record_in usual cut_off (id 1) ≡ Some answered_again_text }
    ensures failed { record_in usual failed (id 1) ≡ Some exhausted_text }
    ensures overdue { record_in no_retries overdue (id 1) ≡ Some timed_out_text }
    ensures failed_then_old { record_in for_one_minute failed_then_old (id 1) ≡ Some failed_then_old_text }
{}
