// Worked examples of what is meant, computed by the check: a definition that changes one is refused.
ghost use Rattle.std.specs.Prelude.{◌≡◌, ◌∷◌, [], Ok, Err, Some, None, true, false};
ghost use Rattle.async_core.specs.declared.choice.Side.TheVariants as side;
ghost use Rattle.operator_view.specs.declared.standings.Which.TheVariants as which;
ghost use Rattle.admin_replies.specs.declared.admin_request.AdminRequest.TheVariants as request;
ghost use Rattle.admin_replies.specs.declared.admin_refusal.AdminRefusal.TheVariants as why;
ghost use Rattle.admin_replies.specs.declared.table.Section.TheVariants as section;
ghost use Rattle.admin_replies.specs.MetricsText.{section_text, info_text};
ghost use Rattle.env_phase.specs.declared.phase.Phase.TheVariants.{Init, Ready};
ghost use Rattle.port_meters.specs.declared.version.Version.{Version};
ghost use Rattle.admin_replies.specs.Phases.{phases_text, phases_noted, unpolled_from};
ghost use Rattle.admin_replies.specs.History as kept;
ghost use Rattle.admin_replies.specs.Examples.{asks, brings, names, listed, gets, third, numbers, usual, bare, held_text, waits_text, commits_text, usual_text, problems_text, premises_text, phases, statuses, earlier_phases, phases_told, sample, history_text};

/// Requests that are understood.
pub fn requests()
    // claim: The prover computes worked requests, refusals and lines. [: behind; refusals: twice; lines: waits]
    ensures page { gets "/" ≡ Ok request.Page }
    ensures metrics { gets "/metrics" ≡ Ok request.Metrics }
    ensures history { gets "/history" ≡ Ok request.History }
    ensures health { gets "/healthz?" ≡ Ok (request.Health false) }
    ensures deep { gets "/healthz?deep" ≡ Ok (request.Health true) }
    ensures events { gets "/events" ≡ Ok (request.Events which.All None 100) }
    ensures some_events { gets "/events?limit=1000&standing=waiting" ≡ Ok (request.Events which.Waiting None 1000) }
    ensures behind { gets "/events?after=00000000-0000-4000-8000-000000000003&standing=failure" ≡ Ok (request.Events which.Failure (Some third) 100) }
    ensures event { gets "/events/00000000-0000-4000-8000-000000000003" ≡ Ok (request.Event third) }
    ensures success { gets "/records/success?limit=1" ≡ Ok (request.Records side.Success None 1) }
    ensures failure { gets "/records/failure?&after=00000000-0000-4000-8000-000000000003" ≡ Ok (request.Records side.Failure (Some third) 100) }
{}

/// Requests that are refused, by the first check that fails.
pub fn refusals()
    ensures method { asks "POST" "/nowhere" ≡ Err why.Method }
    ensures lower_case { asks "get" "/" ≡ Err why.Method }
    ensures path { gets "/nowhere?x=1" ≡ Err why.Path }
    ensures slash { gets "/events?limit=1/" ≡ Err why.Limit }
    ensures id { gets "/events/x?x=1" ≡ Err why.Id }
    ensures no_id { gets "/events/" ≡ Err why.Id }
    ensures unknown { gets "/events?limit=0&colour=red" ≡ Err why.Query }
    ensures twice { gets "/events?limit=5&limit=5" ≡ Err why.Query }
    ensures no_standing { gets "/records/success?standing=success" ≡ Err why.Query }
    ensures no_query { gets "/metrics?limit=5" ≡ Err why.Query }
    ensures standing { gets "/events?limit=0&after=x&standing=ended" ≡ Err why.Standing }
    ensures after { gets "/events?limit=0&after=x" ≡ Err why.After }
    ensures zero { gets "/events?limit=0" ≡ Err why.Limit }
    ensures thousand { gets "/events?limit=1001" ≡ Err why.Limit }
    ensures sign { gets "/events?limit=+5" ≡ Err why.Limit }
    ensures empty { gets "/events?limit" ≡ Err why.Limit }
{}

/// Lists that are brought.
pub fn lists()
    ensures brought { brings "POST" "/records/collect" ≡ true }
    ensures got { brings "GET" "/records/collect" ≡ false }
    ensures query { brings "POST" "/records/collect?" ≡ false }
    ensures ids { listed "00000000-0000-4000-8000-000000000003\r\n\nx" ≡ Some third ∷ None ∷ None ∷ [] }
    ensures ended { listed "00000000-0000-4000-8000-000000000003\n" ≡ Some third ∷ [] }
{}

/// Records that are named to be tried again.
pub fn named_records()
    ensures named { names "POST" "/records/00000000-0000-4000-8000-000000000003/retry" ≡ Some (Some third) }
    ensures plain { names "POST" "/records/00000000000040008000000000000003/retry" ≡ Some (Some third) }
    ensures no_id { names "POST" "/records/collect/retry" ≡ Some None }
    ensures empty { names "POST" "/records//retry" ≡ Some None }
    ensures short { names "POST" "/records/retry" ≡ None }
    ensures query { names "POST" "/records/00000000-0000-4000-8000-000000000003/retry?" ≡ None }
    ensures got { names "GET" "/records/00000000-0000-4000-8000-000000000003/retry" ≡ None }
{}

/// Numbers as they are told.
pub fn lines()
    ensures held { section_text numbers section.Held ≡ held_text }
    ensures waits { section_text numbers section.Waits ≡ waits_text }
    ensures commits { section_text numbers section.Commits ≡ commits_text }
    ensures info { (v : Version) → bare v → info_text v usual ≡ usual_text }
    ensures problems { section_text numbers section.Problems ≡ problems_text }
    ensures premises { section_text numbers section.Premises ≡ premises_text }
    ensures phases { phases_text phases 6005 ≡ phases_told }
    ensures noted { phases_noted statuses earlier_phases 5500 ≡ phases }
    ensures first_noted { phases_noted statuses [] 5500 ≡ record { phase = Init; since = 5500 } ∷ record { phase = Ready; since = 5500 } ∷ [] }
    ensures unpolled { unpolled_from phases 1 6005 ≡ record { environment = 1; time = 2005 } }
    ensures samples { kept.history_text (sample ∷ []) ≡ history_text }
{}
